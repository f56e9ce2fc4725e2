// The track from the estimates: stretches of neighbouring estimates, and which of them are recovered.
// That estimates lie in 60 to 600 Hz is a `requires` and not in their type: `period_hz` gives plain numbers, and only these three
// functions ask it of a list.
ghost use Rattle.std.specs.Prelude.{◌≡◌, map, ◌-◌, ◌≤◌, ◌<◌, length};
ghost use Rattle.lists.specs.By.{Each};
ghost use Rattle.lists.specs.Results.{replaced};
ghost use Rattle.recover.specs.Estimates.{InRange};
ghost use Rattle.recover.specs.Recovered.{joins, end_of, all_pitchless, island, stored, recovered_from};

use crate::estimates::{Estimate, is_pitchless};
use floats::rounding::round_to_f32;
use powers::pitch::within_step;

// Whether frame i goes on with the stretch of the frame before it: not where one of the two has no estimate, nor where they are
// more than 1.5 semitones apart.
fn joins(estimates: &[Estimate], i: usize) -> bool
    requires each { Each InRange estimates.now }
    requires i_nonzero { 0 < i }
    requires i_in_bounds { i < length estimates.now }
    ensures { result ≡ joins estimates.now i }
{
    let Some(last) = estimates[i - 1].get() else {
        return false;
    };
    let Some(here) = estimates[i].get() else {
        return false;
    };
    within_step(last, here)
}

// One past the last frame of the stretch that frame s is in. A frame with no estimate is one by itself. The library's `find` and
// not `first_from`, which looks at 16 frames together: each look compares two powers, and most stretches end before.
fn end_of(estimates: &[Estimate], s: usize) -> usize
    requires each { Each InRange estimates.now }
    requires s_in_bounds { s < length estimates.now }
    ensures { result ≡ end_of estimates.now s }
{
    (s + 1..estimates.len())
        .find(|i| !joins(estimates, *i))
        .unwrap_or(estimates.len())
}

// Whether no frame from a to before b has a pitch.
fn are_pitchless(pitch: &[f32], a: usize, b: usize) -> bool
    requires { a ≤ b }
    ensures { result ≡ all_pitchless pitch.now a (b - a) }
{
    (a..b).all(|i| is_pitchless(pitch, i))
}

// Whether the stretch from s to before e is recovered: it has 3 frames or more, and neither the 3 before it nor the 3
// after it have a pitch.
fn is_island(given: &[f32], s: usize, e: usize) -> bool
    requires s_le_e { s ≤ e }
    requires e_bound { e ≤ 2048 }
    ensures { result ≡ island given.now s e }
{
    3 <= e - s && are_pitchless(given, s.saturating_sub(3), s) && are_pitchless(given, e, e + 3)
}

// An estimate as a track has it, rounded to f32: 0 for none.
fn stored(estimate: Option<f64>) -> f32
    ensures { result ≡ stored estimate }
{
    estimate.map_or(0.0, round_to_f32)
}

// Stores the estimates of frames s to before e in the track.
fn store(estimates: &[Estimate], s: usize, e: usize, pitch: &mut [f32])
    requires s_le_e { s ≤ e }
    requires e_in_bounds { e ≤ length estimates.now }
    requires pitch_len { length pitch.old ≡ length estimates.now }
    ensures { pitch.new ≡ replaced s e (map stored estimates.now) pitch.old }
{
    // By index: `iter_mut().zip(..)` took 1.4 times as long.
    for i in s..e {
        pitch[i] = stored(estimates[i].get());
    }
}

// Stores every stretch that is recovered. Only pitches as given count against one: a neighbour that is stored here does not.
pub fn recover_stretches(estimates: &[Estimate], given: &[f32], pitch: &mut [f32])
    requires each { Each InRange estimates.now }
    requires estimates_len { length estimates.now ≡ length given.now }
    requires given_len_bound { length given.now ≤ 2048 }
    requires pitch_value { pitch.old ≡ given.now }
    ensures { pitch.new ≡ recovered_from given.now estimates.now }
{
    let mut s = 0;
    // A `while`: it goes from stretch to stretch; an own iterator, as `runs` has for two walks, is no plainer for one.
    while s < estimates.len() {
        let e = end_of(estimates, s);
        if is_island(given, s, e) {
            store(estimates, s, e, pitch);
        }
        s = e;
    }
}
