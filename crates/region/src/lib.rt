// Where a take holds speech: its floor, the threshold over it, the speech frames and the region that they span.
// That a track has at most 2,048 frames is a `requires` and no type: C and files give plain slices, and a type round them would
// have to be made before each call.
#![tactic(auto)]

ghost use Rattle.std.specs.Prelude.{◌≡◌, ◌+◌, ◌<◌, ◌≤◌, min, map, [], length, take, slice_index, MatchOption};
ghost use Rattle.floats.specs.Total.{finite_key, value_of};
ghost use Rattle.lists.specs.Results.{overlay};
ghost use Rattle.lists.specs.Sorted.{sorted};
ghost use Rattle.region.specs.Defaults.{defaults, classic};
ghost use Rattle.region.specs.Percentile.{tenth_of, floor_of};
ghost use Rattle.region.specs.Speech.{threshold_over, threshold_of, bounds_over, speech, speech_marks, marks_of, speech_frames, last_of, region_in, region_of};

use lists::count::count_if;
use lists::first::first_from;

// Fewer speech frames than this make no region: a click, or silence.
const MIN_SPEECH_FRAMES: u32 = 5;

// What a call may set: margin is how far over the floor speech lies, in dB; dip is how far the level must fall
// between two nuclei, in dB; gap is how many frames apart two nuclei are at least.
#[repr(C)]
#[derive(Clone, Copy)]
pub struct Settings {
    pub margin: f32,
    pub dip: f32,
    pub gap: u32,
}

// The settings where a call sets none: 10 dB, 3 dB, 6 frames.
pub fn default_settings() -> Settings
    ensures { result ≡ defaults }
{
    Settings {
        margin: 10.0,
        dip: 3.0,
        gap: 6,
    }
}

// The settings of old lessons: 10 dB, 2 dB, 6 frames. Two functions that differ in a number: C has a name for each set.
pub fn classic_settings() -> Settings
    ensures { result ≡ classic }
{
    Settings {
        margin: 10.0,
        dip: 2.0,
        gap: 6,
    }
}

// A speech region: from its first frame to one past its last.
#[derive(Clone, Copy)]
pub struct Region {
    pub start: u32,
    pub end: u32,
}

// Where nuclei, extras and boundaries are looked for: in the region start..end, over the speech threshold.
#[derive(Clone, Copy)]
pub struct Bounds {
    pub threshold: f32,
    pub start: usize,
    pub end: usize,
}

// Writes where each dB stands among the finite ones to the front of keys, by frames. By index: `iter_mut().zip`
// took 1.4 times as long.
fn finite_keys(db: &[f32], keys: &mut [u32])
    requires { length db.now ≤ length keys.old }
    ensures { keys.new ≡ overlay (map finite_key db.now) keys.old }
{
    for i in 0..db.len() {
        keys[i] = floats::total::finite_key(db[i]);
    }
}

// The key at the place after `below` of the sorted keys, where x is the one at `below`; x itself where that is the last
// place that counts.
fn key_above(keys: &[u32], below: u32, last: u32, x: u32) -> u32
    requires below_le_last { (below ≤ last) × (last < length keys.now) × (length keys.now ≤ 2048) }
    requires x_value { x ≡ slice_index (sorted keys.now) below }
    ensures { result ≡ slice_index (sorted keys.now) (min (below + 1) last) }
{
    if below < last {
        return select::next(keys, below, x);
    }
    x
}

// The 10th percentile of the values that stand at the first n of some places, sorted.
fn tenth(keys: &[u32], n: u32) -> f32
    requires { (0 < n) × (n ≤ length keys.now) × (length keys.now ≤ 2048) }
    ensures { result ≡ tenth_of (map value_of (take n (sorted keys.now))) }
{
    let last = n - 1;
    let below = last / 10;
    let x = select::kth(keys, below);
    let y = key_above(keys, below, last, x);
    let lo = std::num::f32_to_f64_with_nan(floats::total::from_total_key(x));
    let hi = std::num::f32_to_f64_with_nan(floats::total::from_total_key(y));
    let rank = 0.1 * (last as f64);
    floats::rounding::round_to_f32(lo + (rank - (below as f64)) * (hi - lo))
}

// The floor of a track, its quiet level in dB: the 10th percentile of its finite dB, between two of them by proportion. A
// track with no finite dB has none.
pub fn floor_db(db: &[f32]) -> Option<f32>
    requires { length db.now ≤ 2048 }
    ensures { result ≡ floor_of db.now }
{
    // A table and its part: each frame has an entry, which is written at its place; there is no heap.
    let mut keys = [0u32; 2048];
    finite_keys(db, &mut keys);
    // how many are finite: the others have the last key there is
    let n = select::count(&keys[..db.len()], 0xffff_fffe);
    if n == 0 {
        return None;
    }
    Some(tenth(&keys[..db.len()], n))
}

// What a frame's dB must exceed to be speech; +infinity over no floor, which nothing exceeds.
pub fn threshold_over(floor: Option<f32>, margin: f32) -> f32
    ensures { result ≡ threshold_over floor margin }
{
    floor.map_or(f32::INFINITY, |x| x + margin)
}

// The region start..end, with the threshold over a floor.
pub fn bounds_over(floor: f32, p: Settings, start: usize, end: usize) -> Bounds
    ensures { result ≡ bounds_over floor p start end }
{
    Bounds {
        threshold: floor + p.margin,
        start,
        end,
    }
}

// The speech threshold of a track.
pub fn speech_threshold(db: &[f32], p: Settings) -> f32
    requires { length db.now ≤ 2048 }
    ensures { result ≡ threshold_of db.now p }
{
    threshold_over(floor_db(db), p.margin)
}

// Whether a frame of d dB is speech: finite and strictly above the threshold. What is above it is no NaN and not
// -infinity, so +infinity is left to be shut out.
pub fn is_speech(threshold: f32, d: f32) -> bool
    ensures { result ≡ speech threshold d }
{
    threshold < d && d < f32::INFINITY
}

// Marks the speech frames of a track, given its threshold, by 1 and the others by 0, at the front of out, whose entries past
// the track stay. Marks are bytes, as C lends them; they are written by index: `iter_mut().zip` took 1.4 times as long.
pub fn marks_above(db: &[f32], threshold: f32, out: &mut [u8])
    requires { length db.now ≤ length out.old }
    ensures { out.new ≡ overlay (speech_marks threshold db.now) out.old }
{
    for i in 0..db.len() {
        out[i] = is_speech(threshold, db[i]) as u8;
    }
}

// Marks the speech frames of a track at the front of out, whose entries past the track stay.
pub fn speech_frames(db: &[f32], p: Settings, out: &mut [u8])
    requires db_len_bound { length db.now ≤ 2048 }
    requires db_in_bounds { length db.now ≤ length out.old }
    ensures { out.new ≡ overlay (marks_of db.now p) out.old }
{
    marks_above(db, speech_threshold(db, p), out);
}

// How many frames are speech. The dB and the threshold are parameters in all these functions: two public ones take them so, and
// a struct for them, as boundaries has, would be made anew in each.
fn speech_count(db: &[f32], threshold: f32) -> u32
    requires { length db.now ≤ 2048 }
    ensures { result ≡ length (speech_frames threshold db.now) }
{
    count_if(db, |d| is_speech(threshold, d))
}

// The first speech frame.
fn first_speech(db: &[f32], threshold: f32) -> Option<usize>
    ensures { MatchOption result (speech_frames threshold db.now ≡ []) (λ i. (i ≡ slice_index (speech_frames threshold db.now) 0) × (i < length db.now)) }
{
    first_from(|i| is_speech(threshold, db[i]), 0, db.len())
}

// The last speech frame. A `for` from the end: of `rposition` the library has no law that speaks of the list.
fn last_speech(db: &[f32], threshold: f32) -> Option<usize>
    ensures { MatchOption result (speech_frames threshold db.now ≡ []) (λ i. (i ≡ last_of 0 (speech_frames threshold db.now)) × (i < length db.now)) }
{
    for i in (0..db.len()).rev() {
        if is_speech(threshold, db[i]) {
            return Some(i);
        }
    }
    None
}

// The speech region of a track, given its threshold: from the first speech frame to one past the last, pauses included.
// Fewer than 5 speech frames make none.
pub fn region_above(db: &[f32], threshold: f32) -> Option<Region>
    requires { length db.now ≤ 2048 }
    ensures { result ≡ region_in (speech_frames threshold db.now) }
{
    if speech_count(db, threshold) < MIN_SPEECH_FRAMES {
        return None;
    }
    let start = first_speech(db, threshold)? as u32;
    let end = last_speech(db, threshold)? as u32 + 1;
    Some(Region { start, end })
}

// The speech region of a track.
pub fn speech_region(db: &[f32], p: Settings) -> Option<Region>
    requires { length db.now ≤ 2048 }
    ensures { result ≡ region_of db.now p }
{
    region_above(db, speech_threshold(db, p))
}
