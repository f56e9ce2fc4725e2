// Where a voiced run splits: across a sonorant neither level nor pitch parts two syllables, but the spectrum changes where
// they meet.
ghost use Rattle.std.specs.Prelude.{◌≡◌, ◌&&◌, ◌+◌, ◌≤◌, ◌<◌, leb, length};
ghost use Rattle.std.specs.Float.Ieee.{le};
ghost use Rattle.extra.specs.Split.{fifth, change, abs_diff, split_of};

use floats::plain::magnitude;
use runs::voiced::Span;
use smooth::level::mean;

// The sonority changes by this much or more across a split.
const SPLIT_CHANGE: f32 = 0.2;
// Frames on either side of a split over which the sonority is averaged.
const SPLIT_REACH: usize = 2;
// Frames that each part of a split run has at least: 60 ms, the shortest syllable.
const MIN_PART: usize = 6;
// The fewest frames from a split to the run's nucleus.
const SPLIT_FROM_NUCLEUS: usize = 3;

// How much the sonority changes across frame k.
fn change_at(son: &[f32], k: usize) -> f32
    requires { (2 ≤ k) × (k + 2 ≤ length son.now) }
    ensures { result ≡ change son.now k }
{
    magnitude(mean(son, k, k + SPLIT_REACH) - mean(son, k - SPLIT_REACH, k))
}

// Whether frame k is a better split than the best so far, whose change is the most: far enough from the nucleus, with a
// change that is large enough and not smaller.
fn is_better(most: f32, change: f32, nucleus: usize, k: usize) -> bool
    ensures { result ≡ ((leb 3 (abs_diff k nucleus) && le fifth change) && le most change) }
{
    if k.abs_diff(nucleus) < SPLIT_FROM_NUCLEUS {
        return false;
    }
    SPLIT_CHANGE <= change && most <= change
}

// Where a run that holds a nucleus splits: before the frame across which the sonority changes most, the later on a tie. A
// run of fewer than 12 frames does not.
pub fn split(son: &[f32], run: Span, nucleus: usize) -> Option<usize>
    requires { (run.first ≤ run.last) × (run.last < length son.now) × (length son.now ≤ 2048) }
    ensures { result ≡ split_of son.now run nucleus }
{
    let mut best = None;
    let mut most = SPLIT_CHANGE;
    let end = (run.last as usize + 2).saturating_sub(MIN_PART);
    for k in run.first as usize + MIN_PART..end {
        let change = change_at(son, k);
        if is_better(most, change, nucleus, k) {
            most = change;
            best = Some(k);
        }
    }
    best
}
