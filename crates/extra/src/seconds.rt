// The second syllables of voiced runs that hold one nucleus.
ghost use Rattle.std.specs.Prelude.{◌≡◌, ◌≤◌, ◌<◌, length};
ghost use Rattle.lists.specs.Sorted.{StrictlyRises};
ghost use Rattle.runs.specs.Runs.{long_runs, Spaced};
ghost use Rattle.extra.specs.Split.{split_of};
ghost use Rattle.extra.specs.Seconds.{held_by, other_part, after_cut, second_in, seconds};
ghost use Rattle.extra.specs.Passing.{Onward, LeftFrom};

use super::split::split;
use arrayvec::ArrayVec;
use runs::near::{RADIUS, near_start};
use runs::voiced::{Span, long_runs};

// A second syllable in a run: its frame, and its edge.
#[derive(Clone, Copy, Default)]
pub struct Second {
    pub frame: u32,
    pub edge: u32,
}

// The kept frames from the first on that is not more than 2 before frame a.
// From the front and no `partition_point`: each search begins where the last one ended.
fn skip_to(kept: &[u32], a: u32) -> &[u32]
    requires { StrictlyRises 0 2048 kept.now }
    ensures { LeftFrom kept.now a result.now }
{
    let least = near_start(a);
    for (i, f) in kept.iter().enumerate() {
        if least <= *f as usize {
            return &kept[i..];
        }
    }
    &[]
}

// The one of the kept frames that a run holds; nothing where it holds none or several. None of them lies before the run.
fn one_held(kept: &[u32], run: Span) -> Option<u32>
    requires { (run.first ≤ run.last) × (run.last < 2048) × StrictlyRises 0 2048 kept.now × Onward run.first kept.now }
    ensures { result ≡ held_by kept.now run }
{
    let end = run.last + RADIUS;
    match kept {
        [_, second, ..] if *second <= end => None,
        [first, ..] if *first <= end => Some(*first),
        _ => None,
    }
}

// The middle of the part of a run, split before frame k, that is without the nucleus.
fn other_part(run: Span, nucleus: usize, k: usize) -> usize
    requires { (run.first < k) × (k ≤ run.last) × (run.last < 2048) }
    ensures { (result ≡ other_part run nucleus k) × (result ≤ run.last) }
{
    if nucleus < k {
        (k + run.last as usize) / 2
    } else {
        (run.first as usize + (k - 1)) / 2
    }
}

// The second syllable of a run, which holds a nucleus.
fn second_beside(son: &[f32], run: Span, nucleus: usize) -> Option<Second>
    requires { (run.first ≤ run.last) × (run.last < length son.now) × (length son.now ≤ 2048) }
    ensures { result ≡ after_cut run nucleus (split_of son.now run nucleus) }
{
    let k = split(son, run, nucleus)?;
    Some(Second {
        frame: other_part(run, nucleus, k) as u32,
        edge: k as u32,
    })
}

// The second syllable of a run; none where it does not hold exactly one of the kept frames, none of which lies before it.
fn second_in(son: &[f32], kept: &[u32], run: Span) -> Option<Second>
    requires { (run.first ≤ run.last) × (run.last < length son.now) × (length son.now ≤ 2048)
        × StrictlyRises 0 2048 kept.now × Onward run.first kept.now }
    ensures { result ≡ second_in son.now kept.now run }
{
    let nucleus = one_held(kept, run)?;
    second_beside(son, run, nucleus as usize)
}

// Leaves in a list the second syllables of runs, in order, and nothing else. The runs are walked together with the kept
// frames, of which `rest` is left.
fn seconds_of<const N: usize>(
    son: &[f32],
    kept: &[u32],
    runs: &[Span],
    found: &mut ArrayVec<Second, N>,
)
    requires { (length son.now ≤ 2048) × StrictlyRises 0 2048 kept.now × Spaced 0 (length son.now) runs.now
        × (length runs.now ≤ N) }
    ensures { found.new.items ≡ seconds son.now kept.now runs.now }
{
    found.clear();
    let mut rest = kept;
    for run in runs {
        rest = skip_to(rest, run.first);
        if let Some(second) = second_in(son, rest, *run) {
            found.push(second);
        }
    }
}

// Leaves in a list the second syllables of the long runs, in order, and nothing else.
pub fn second_syllables<const N: usize>(
    son: &[f32],
    pitch: &[f32],
    kept: &[u32],
    found: &mut ArrayVec<Second, N>,
)
    requires { (length son.now ≤ 2048) × (length pitch.now ≡ length son.now) × StrictlyRises 0 2048 kept.now
        × (length (long_runs pitch.now) ≤ N) }
    ensures { found.new.items ≡ seconds son.now kept.now (long_runs pitch.now) }
{
    seconds_of(son, kept, &long_runs(pitch), found);
}
