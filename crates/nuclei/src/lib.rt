// Nuclei: one frame for each syllable, with its level over the floor.
// Frames and strengths go to two lent lists with one count, and a region comes as two numbers: the C interface lends and gives
// them so, and the layer that makes records of them was asked for by name (docs/DECISIONS.md).
// That a track has at most 2,048 frames, and that lists of runs are no longer, is a `requires` and no type: C and files give
// plain slices, and a type round them would have to be made before each call.
#![tactic(auto)]

pub mod merging;
pub mod peaks;
pub mod tops;

ghost use Rattle.std.specs.Prelude.{◌≡◌, map, ◌+◌, ◌≤◌, ◌<◌, length};
ghost use Rattle.lists.specs.By.{Each};
ghost use Rattle.runs.specs.Runs.{long_runs};
ghost use Rattle.runs.specs.Syllables.{syllable_runs};
ghost use Rattle.nuclei.specs.Nuclei.{NucleiListed, candidates, nucleus_frames, nucleus_at, nuclei_of};

use arrayvec::ArrayVec;
use merging::merged;
use peaks::{RegionLevel, peaks_onto};
use region::{Settings, bounds_over, floor_db};
use runs::syllables::syllables_of;
use runs::voiced::{MOST_RUNS, Span, long_runs};
use smooth::extrema::{Extremum, local_extrema};
use smooth::level::smoothed_db;
use tops::{run_tops, runs_held};

// Leaves the candidates in a list, and nothing else: the voiced peaks, each moved onto its run, and the tops of the runs that
// hold none. They are in no order, and may repeat. The list is lent, since one that is returned lies on the stack twice more.
pub fn candidates<const N: usize>(
    r: RegionLevel<'_>,
    pitch: &[f32],
    runs: &[Span],
    dip: f32,
    found: &mut ArrayVec<u32, N>,
)
    requires { (length r.level.now ≤ 2048) × (length runs.now ≤ 2048)
        × (length r.level.now + length runs.now ≤ N) }
    ensures { found.new.items ≡ candidates r.entry.level.now pitch.now runs.now r.entry.bounds dip }
{
    let mut peaks = ArrayVec::<u32, 2048>::new();
    local_extrema(
        r.level,
        r.bounds.start,
        r.bounds.end,
        Extremum::Max,
        &mut peaks,
    );
    found.clear();
    peaks_onto(r, pitch, runs, &peaks, found);
    let mut held = ArrayVec::<u32, 2048>::new();
    runs_held(runs, found, &mut held);
    run_tops(r, dip, runs, &held, found);
}

// Leaves the frames of the nuclei, in order, in a list, and nothing else, given the level.
fn nucleus_frames(r: RegionLevel<'_>, pitch: &[f32], p: Settings, kept: &mut ArrayVec<u32, 2048>)
    requires { (length r.level.now ≤ 2048) × (length pitch.now ≤ 2048) }
    ensures { kept.new.items ≡ nucleus_frames r.entry.level.now pitch.now (long_runs pitch.now)
        (syllable_runs pitch.now) r.entry.bounds p }
{
    let runs = long_runs(pitch);
    // As many as the frames of a take and the runs that it can have.
    let mut cands = ArrayVec::<u32, 2560>::new();
    candidates(r, pitch, &runs, p.dip, &mut cands);
    merged(
        r.level,
        &syllables_of::<MOST_RUNS>(pitch, &runs),
        p,
        &cands,
        kept,
    );
}

// Writes frames and their levels over the floor to the front of the two lists, and returns how many they are.
// By index: `iter_mut` with `zip` takes 1.4 times as long.
pub fn write_nuclei(
    s: &[f32],
    floor: f32,
    kept: &[u32],
    frames: &mut [u32],
    strengths: &mut [f32],
) -> usize
    requires { (length kept.now ≤ length frames.old) × (length kept.now ≤ length strengths.old)
        × Each (λ x. x < length s.now) kept.now }
    ensures { NucleiListed (map (nucleus_at s.now floor) kept.now) frames.old
        frames.new strengths.old strengths.new result }
{
    for (i, x) in kept.iter().enumerate() {
        frames[i] = *x;
        strengths[i] = s[*x as usize] - floor;
    }
    kept.len()
}

// Writes the nuclei of a take in the region start..end, in order, to the front of the two lists, and returns how many
// they are. A take with no finite dB has none, and an empty region none.
pub fn nuclei(
    db: &[f32],
    pitch: &[f32],
    start: usize,
    end: usize,
    p: Settings,
    frames: &mut [u32],
    strengths: &mut [f32],
) -> usize
    requires { (length db.now ≤ 2048) × (length pitch.now ≡ length db.now) × (end ≤ length db.now)
        × (length db.now ≤ length frames.old) × (length db.now ≤ length strengths.old) }
    ensures { NucleiListed (nuclei_of db.now pitch.now start end p) frames.old
        frames.new strengths.old strengths.new result }
{
    let Some(floor) = floor_db(db) else {
        return 0;
    };
    let mut s = [0.0f32; 2048];
    smoothed_db(db, &mut s);
    let level = &s[..db.len()];
    let r = RegionLevel {
        level,
        bounds: bounds_over(floor, p, start, end),
    };
    let mut kept = ArrayVec::<u32, 2048>::new();
    nucleus_frames(r, pitch, p, &mut kept);
    write_nuclei(level, floor, &kept, frames, strengths)
}
