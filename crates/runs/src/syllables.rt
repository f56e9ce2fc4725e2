// Syllable runs: long runs, grouped unless the pitch breaks between them; and the gaps inside them.
ghost use Rattle.std.specs.Prelude.{◌≡◌, ◌≤◌, ◌<◌, length};
ghost use Rattle.runs.specs.Runs.{InTrack};
ghost use Rattle.runs.specs.Syllables.{breaks_from, syllables_of, syllable_runs, dropouts_of, dropouts};

use super::voiced::{MOST_RUNS, Span, long_runs};
use arrayvec::ArrayVec;

// Whether the pitch moves 3 semitones or more from frame a to frame b; false where one of the two has none.
fn breaks_from(pitch: &[f32], a: u32, b: u32) -> bool
    requires { (a < length pitch.now) × (b < length pitch.now) }
    ensures { result ≡ breaks_from pitch.now a b }
{
    powers::pitch::breaks_any(pitch[a as usize], pitch[b as usize])
}

// The syllable runs that the given runs make.
pub fn syllables_of<const N: usize>(pitch: &[f32], runs: &[Span]) -> ArrayVec<Span, N>
    requires { InTrack (length pitch.now) runs.now × (length runs.now ≤ N) }
    ensures { result.items ≡ syllables_of pitch.now runs.now }
{
    let mut syllables = ArrayVec::new();
    let Some((first, rest)) = runs.split_first() else {
        return syllables;
    };
    // The runs so far that the pitch does not break between, as one.
    let mut group = *first;
    for run in rest {
        if breaks_from(pitch, group.last, run.first) {
            syllables.push(group);
            group = *run;
        } else {
            group.last = run.last;
        }
    }
    syllables.push(group);
    syllables
}

// The gaps between the given runs that the pitch does not break across, by the frames before and after each.
pub fn dropouts_of<const N: usize>(pitch: &[f32], runs: &[Span]) -> ArrayVec<Span, N>
    requires { InTrack (length pitch.now) runs.now × (length runs.now ≤ N) }
    ensures { result.items ≡ dropouts_of pitch.now runs.now }
{
    let mut dropouts = ArrayVec::new();
    for pair in runs.windows(2) {
        let gap = Span {
            first: pair[0].last,
            last: pair[1].first,
        };
        if !breaks_from(pitch, gap.first, gap.last) {
            dropouts.push(gap);
        }
    }
    dropouts
}

// The syllable runs, in order.
pub fn syllable_runs(pitch: &[f32]) -> ArrayVec<Span, MOST_RUNS>
    requires { length pitch.now ≤ 2048 }
    ensures { result.items ≡ syllable_runs pitch.now }
{
    syllables_of(pitch, &long_runs(pitch))
}

// The dropouts, in order: the last voiced frame before and the first after each.
pub fn dropouts(pitch: &[f32]) -> ArrayVec<Span, MOST_RUNS>
    requires { length pitch.now ≤ 2048 }
    ensures { result.items ≡ dropouts pitch.now }
{
    dropouts_of(pitch, &long_runs(pitch))
}
