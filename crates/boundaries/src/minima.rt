// Minima of the level inside long spans, the most prominent first.
ghost use Rattle.std.specs.Prelude.{◌≡◌, List, ℕ, ◌+◌, ◌-◌, ◌≤◌, ◌<◌, length};
ghost use Rattle.lists.specs.By.{Each};
ghost use Rattle.lists.specs.Marks.{Once};
ghost use Rattle.lists.specs.Sorted.{StrictlyRises, sorted};
ghost use Rattle.lists.specs.Candidates.{in_turn};
ghost use Rattle.boundaries.specs.Keeping.{add_all};
ghost use Rattle.boundaries.specs.Taken.{marked, Taken};
ghost use Rattle.boundaries.specs.Minima.{climb_left, climb_right, prominence_at, in_long_span, minima};

use super::edges::mark_frames;
use super::taken::Kept;
use arrayvec::ArrayVec;
use lists::candidates::key_of;
use smooth::extrema::{Extremum, local_extrema, lower};

// A span of more than this many frames is searched for minima.
const LONG_SPAN_FRAMES: u32 = 35;

// The top of the hill on the left of frame i, across flat stretches; where the track begins at the latest.
// A loop: it goes backwards, and of `find` over a range from its end the library has no law.
fn climb_left(level: &[f32], i: usize) -> usize
    requires { i < length level.now }
    ensures { (result ≡ climb_left level.now i) × (result ≤ i) }
{
    for l in (1..i + 1).rev() {
        if !(level[l] <= level[l - 1]) {
            return l;
        }
    }
    0
}

// The top of the hill on the right of frame i, across flat stretches; where the track ends at the latest.
// A loop, which asks one frame at a time: most climbs end within a few frames, and `first_from` asks 16 together.
fn climb_right(level: &[f32], i: usize) -> usize
    requires { i < length level.now }
    ensures { (result ≡ climb_right level.now i (length level.now - 1 - i))
        × (result < length level.now) }
{
    let last = level.len() - 1;
    for r in i..last {
        if !(level[r] <= level[r + 1]) {
            return r;
        }
    }
    last
}

// The prominence of frame i: the level on the lower of its two hills, less its own.
fn prominence(level: &[f32], i: usize) -> f32
    requires { i < length level.now }
    ensures { result ≡ prominence_at level.now i }
{
    let l = climb_left(level, i);
    let r = climb_right(level, i);
    lower(level[l], level[r]) - level[i]
}

// Marks of the frames strictly inside the spans of more than 35 frames between neighbours of a list.
fn long_spans(kept: &[u32]) -> [bool; 2048]
    requires { StrictlyRises 0 2049 kept.now }
    ensures { marked result ≡ in_long_span kept.now }
{
    let mut marks = [false; 2048];
    for span in kept.windows(2) {
        if LONG_SPAN_FRAMES < span[1] - span[0] {
            mark_frames(span[0] as usize + 1, span[1] as usize, &mut marks);
        }
    }
    marks
}

// Tries the minima inside the long spans of what is kept at frames that are not marked, the most prominent first, the
// earlier of equal ones.
pub fn add_minima(level: &[f32], skip: &[bool; 2048], kept: &mut Kept)
    requires { length level.now ≤ 2048 }
    ensures { (ks : List ℕ) → Each (λ x. x ≤ length level.now) ks → Once ks → Taken ks kept.old
        → Taken (add_all kept.old.cap ks (in_turn (minima level.now (marked skip.now) (sorted ks))))
        kept.new }
{
    let mut frames = ArrayVec::<u32, 2049>::new();
    kept.frames(level.len(), &mut frames);
    let spans = long_spans(&frames);
    let mut minima = ArrayVec::<u32, 2048>::new();
    local_extrema(level, 0, level.len(), Extremum::Min, &mut minima);
    let mut keys: ArrayVec<u64, 2048> = ArrayVec::new();
    for m in minima.as_slice() {
        let i = *m as usize;
        if spans[i] && !skip[i] {
            keys.push(key_of(*m, prominence(level, i)));
        }
    }
    kept.add_sorted(&mut keys);
}
