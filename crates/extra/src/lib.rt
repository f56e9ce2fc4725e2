// Extras: syllables that the nuclei miss, and the edges that go with them. A vowel can be loud and have no pitch that the
// tracker accepts, and two syllables may share a voiced run in which neither level nor pitch parts them.
// Lent lists and a region as two numbers: as in `nuclei`.
// That a track has at most 2,048 frames is a `requires` and no type: C and files give plain slices, and a type round them would
// have to be made before each call.
// That frames rise is one too: they are lent as plain lists, and a type round them would have to be made before each call.
#![tactic(auto)]

pub mod merging;
pub mod seconds;
pub mod split;
pub mod unpitched;

ghost use Rattle.std.specs.Prelude.{◌≡◌, map, ◌++◌, ◌≤◌, length};
ghost use Rattle.lists.specs.Results.{filter};
ghost use Rattle.runs.specs.Runs.{RoomOfTwo};
ghost use Rattle.lists.specs.Sorted.{StrictlyRises};
ghost use Rattle.lists.specs.Marks.{in_order};
ghost use Rattle.nuclei.specs.Nuclei.{NucleiListed, nucleus_at};
ghost use Rattle.extra.specs.Merging.{mark_at};
ghost use Rattle.extra.specs.Seconds.{frame_of, edge_of};
ghost use Rattle.extra.specs.Extra.{edges_between, SameLength, ExtrasListed, extra_frames, extra_edges, extras_of, edges_of};

use arrayvec::ArrayVec;
use lists::marks::{in_order, marks};
use merging::merged;
use nuclei::peaks::RegionLevel;
use region::{Settings, bounds_over, floor_db};
use runs::voiced::MOST_RUNS;
use seconds::{Second, second_syllables};
use smooth::extrema::{Extremum, Part};
use smooth::level::smoothed_db;
use unpitched::unpitched_peaks;

// How many extras there are, and how many edges.
#[derive(Clone, Copy)]
pub struct Counts {
    pub extras: usize,
    pub edges: usize,
}

// Leaves in a list the frames of the extras, in no order: those of the kept anchors that are peaks, and those of the second
// syllables.
fn all_frames(
    is_peak: &[bool; 2048],
    kept: &[u32],
    seconds: &[Second],
    frames: &mut ArrayVec<u32, 2560>,
)
    requires { StrictlyRises 0 2048 kept.now × (length seconds.now ≤ 512) }
    ensures { frames.new.items ≡ filter (mark_at is_peak.now) kept.now ++ map frame_of seconds.now }
{
    frames.clear();
    for x in kept {
        if is_peak[*x as usize] {
            frames.push(*x);
        }
    }
    for second in seconds {
        frames.push(second.frame);
    }
}

// Leaves in a list the edges of the extras, in no order and with repeats: those between neighbouring anchors of which one
// at least is a peak, and those of the second syllables.
fn all_edges(
    s: &[f32],
    is_peak: &[bool; 2048],
    kept: &[u32],
    seconds: &[Second],
    edges: &mut ArrayVec<u32, 2560>,
)
    requires { (length s.now ≤ 2048) × StrictlyRises 0 (length s.now) kept.now × (length seconds.now ≤ 512) }
    ensures { edges.new.items ≡ edges_between s.now (mark_at is_peak.now) kept.now ++ map edge_of seconds.now }
{
    edges.clear();
    for pair in kept.windows(2) {
        let between = Part {
            s,
            a: pair[0] as usize,
            b: pair[1] as usize,
        };
        if is_peak[between.a] || is_peak[between.b] {
            edges.push(between.extremum_middle(Extremum::Min) as u32);
        }
    }
    for second in seconds {
        edges.push(second.edge);
    }
}

// Writes the frames of a list, in order and each once, with their levels over the floor, and returns how many they are.
fn write_extras(
    s: &[f32],
    floor: f32,
    cands: &[u32],
    frames: &mut [u32],
    strengths: &mut [f32],
) -> usize
    requires { RoomOfTwo s.now frames.old strengths.old }
    ensures { NucleiListed
        (map (nucleus_at s.now floor) (in_order cands.now (length s.now)))
        frames.old frames.new strengths.old strengths.new result }
{
    let n = in_order(cands, s.len(), frames);
    // By index: `iter_mut().zip(..)` took 1.4 times as long.
    for i in 0..n {
        strengths[i] = s[frames[i] as usize] - floor;
    }
    n
}

// Writes the extras, their strengths and their edges, given the level and the floor.
fn extras_over(
    r: RegionLevel<'_>,
    pitch: &[f32],
    son: &[f32],
    floor: f32,
    nuclei: &[u32],
    p: Settings,
    frames: &mut [u32],
    strengths: &mut [f32],
    edges: &mut [u32],
) -> Counts
    requires same_length { SameLength r.level.now pitch.now son.now }
    requires s_in_bounds { (length r.level.now ≤ length frames.old) × (length r.level.now ≤ length strengths.old)
        × (length r.level.now ≤ length edges.old) }
    ensures { ExtrasListed
        (map (nucleus_at r.entry.level.now floor)
        (extra_frames r.entry.level.now pitch.now son.now r.entry.bounds p nuclei.now))
        (extra_edges r.entry.level.now pitch.now son.now r.entry.bounds p nuclei.now)
        frames.old frames.new strengths.old strengths.new
        edges.old edges.new result }
{
    let mut peaks = ArrayVec::<u32, 2048>::new();
    unpitched_peaks(r, pitch, son, &mut peaks);
    let mut kept = ArrayVec::<u32, 2048>::new();
    merged(r.level, p, nuclei, &peaks, &mut kept);
    let is_peak = marks(&peaks);
    let mut seconds = ArrayVec::<Second, MOST_RUNS>::new();
    second_syllables(son, pitch, &kept, &mut seconds);
    // The frames, and then the edges.
    let mut found = ArrayVec::new();
    all_frames(&is_peak, &kept, &seconds, &mut found);
    let extras = write_extras(r.level, floor, &found, frames, strengths);
    all_edges(r.level, &is_peak, &kept, &seconds, &mut found);
    Counts {
        extras,
        edges: in_order(&found, r.level.len(), edges),
    }
}

// Writes the extras of a take in the region start..end beside its nuclei, in order, to the front of frames and strengths,
// and their edges, in order and each once, to the front of edges. Returns how many they are. A take with no finite dB has
// none, and a sonority of another length than the track gives none.
pub fn extra_candidates(
    db: &[f32],
    pitch: &[f32],
    sonority: &[f32],
    start: usize,
    end: usize,
    nuclei: &[u32],
    p: Settings,
    frames: &mut [u32],
    strengths: &mut [f32],
    edges: &mut [u32],
) -> Counts
    requires { (length db.now ≤ 2048) × (length pitch.now ≡ length db.now) × (end ≤ length db.now)
        × (length db.now ≤ length frames.old) × (length db.now ≤ length strengths.old)
        × (length db.now ≤ length edges.old) }
    ensures { ExtrasListed
        (extras_of db.now pitch.now sonority.now start end nuclei.now p)
        (edges_of db.now pitch.now sonority.now start end nuclei.now p)
        frames.old frames.new strengths.old strengths.new
        edges.old edges.new result }
{
    if sonority.len() != db.len() {
        return Counts {
            extras: 0,
            edges: 0,
        };
    }
    let Some(floor) = floor_db(db) else {
        return Counts {
            extras: 0,
            edges: 0,
        };
    };
    let mut s = [0.0f32; 2048];
    smoothed_db(db, &mut s);
    let r = RegionLevel {
        level: &s[..db.len()],
        bounds: bounds_over(floor, p, start, end),
    };
    extras_over(
        r, pitch, sonority, floor, nuclei, p, frames, strengths, edges,
    )
}
