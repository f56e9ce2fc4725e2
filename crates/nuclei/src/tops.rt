// The tops of voiced runs that hold no peak.
ghost use Rattle.std.specs.Prelude.{◌≡◌, true, false, ◌++◌, ◌+◌, ◌≤◌, ◌<◌, length, MatchOption};
ghost use Rattle.arrayvec.specs.ArrayVec.{array_vec_len};
ghost use Rattle.nuclei.specs.Tops.{runs_held, unheld_from, top_of, on_flank, stands_alone, has_top, tops_of};

use super::peaks::RegionLevel;
use arrayvec::ArrayVec;
use lists::marks::marks;
use runs::near::{near_end, near_start, run_of};
use runs::voiced::Span;
use smooth::extrema::{Extremum, Part};

// Leaves the numbers of the runs that frames belong to, a frame at a time, in a list, and nothing else.
pub fn runs_held<const N: usize>(runs: &[Span], frames: &[u32], held: &mut ArrayVec<u32, N>)
    requires { (length runs.now ≤ 2048) × (length frames.now ≤ N) }
    ensures { held.new.items ≡ runs_held runs.now frames.now }
{
    held.clear();
    for x in frames {
        if let Some(found) = run_of(runs, *x) {
            held.push(found.number);
        }
    }
}

// Whether some frame within 2 of frame at is more than dip louder.
fn on_flank(s: &[f32], dip: f32, at: u32) -> bool
    requires { at < length s.now }
    ensures { result ≡ on_flank s.now dip at }
{
    let most = s[at as usize] + dip;
    (near_start(at)..near_end(at, s.len())).any(|i| most < s[i])
}

// Whether the top of a run is a candidate.
fn stands_alone(r: RegionLevel<'_>, dip: f32, at: u32) -> bool
    requires { at < length r.level.now }
    ensures { result ≡ stands_alone r.entry.level.now r.entry.bounds dip at }
{
    r.is_speech(at) && !on_flank(r.level, dip, at)
}

// The top of a run, if it has one: where the run is loudest inside the region, of a flat stretch its middle. A run outside
// the region has none.
fn top_of(r: RegionLevel<'_>, dip: f32, run: Span) -> Option<u32>
    requires { length r.level.now ≤ 2048 }
    ensures { MatchOption result (has_top r.entry.level.now r.entry.bounds dip run ≡ false)
        (λ top. (has_top r.entry.level.now r.entry.bounds dip run ≡ true)
        × (top ≡ top_of r.entry.level.now r.entry.bounds run)) }
{
    let lo = (run.first as usize).max(r.bounds.start);
    let hi = (run.last as usize + 1).min(r.bounds.end);
    if hi <= lo {
        return None;
    }
    let part = Part {
        s: r.level,
        a: lo,
        b: hi - 1,
    };
    let top = part.extremum_middle(Extremum::Max) as u32;
    stands_alone(r, dip, top).then_some(top)
}

// Puts the tops of the runs whose number is not among the held ones after what there is.
pub fn run_tops<const N: usize>(
    r: RegionLevel<'_>,
    dip: f32,
    runs: &[Span],
    held: &[u32],
    out: &mut ArrayVec<u32, N>,
)
    requires { (length r.level.now ≤ 2048) × (length runs.now ≤ 2048)
        × (array_vec_len out.old + length runs.now ≤ N) }
    ensures { out.new.items ≡ out.old.items ++
        tops_of r.entry.level.now r.entry.bounds dip (unheld_from held.now 0 runs.now) }
{
    let is_held = marks(held);
    for (k, run) in runs.iter().enumerate() {
        if !is_held[k] {
            if let Some(top) = top_of(r, dip, *run) {
                out.push(top);
            }
        }
    }
}
