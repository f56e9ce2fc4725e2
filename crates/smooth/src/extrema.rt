// Local extrema of a track, the extremum of a part of it, and valleys between peaks.
ghost use Rattle.std.specs.Prelude.{◌≡◌, ◌||◌, ◌+◌, ◌-◌, ◌<◌, ◌≤◌, length, leb};
ghost use Rattle.std.proofs.Math.Seq.{slice};
ghost use Rattle.smooth.specs.Extrema.{beyond, unreached, further, lower, furthest, left_clear, right_clear, middle, local_extrema, first_best, changes_after, flat_last, extremum_middle, shallow};
ghost use Rattle.smooth.specs.Offered.{offered};

use arrayvec::ArrayVec;
use lists::first::first_from;

// Which extremum: a kind that the definitions are over, and no step to run. Closures in its place would hide which.
#[derive(Clone, Copy)]
pub enum Extremum {
    Max,
    Min,
}

// Whether x is above y, or below it for a minimum.
fn is_beyond(kind: Extremum, x: f32, y: f32) -> bool
    ensures { result ≡ beyond kind x y }
{
    match kind {
        Extremum::Max => y < x,
        Extremum::Min => x < y,
    }
}

// Whether frame i is beyond the frame before it; at the start of the track it is.
fn left_clear(s: &[f32], kind: Extremum, i: usize) -> bool
    requires { i < length s.now }
    ensures { result ≡ left_clear kind s.now i }
{
    i == 0 || is_beyond(kind, s[i], s[i - 1])
}

// Whether frame j is beyond the frame after it; at the end of the track it is.
fn right_clear(s: &[f32], kind: Extremum, j: usize) -> bool
    requires { j < length s.now }
    ensures { result ≡ right_clear kind s.now j }
{
    s.len() <= j + 1 || is_beyond(kind, s[j], s[j + 1])
}

// The middle of first..=last, rounded down.
fn middle(first: usize, last: usize) -> usize
    requires { first ≤ last }
    ensures { result ≡ middle first last }
{
    first + (last - first) / 2
}

// Whether the flat stretch i..=j is beyond what surrounds it, with its middle in lo..hi.
fn is_offered(s: &[f32], lo: usize, hi: usize, kind: Extremum, i: usize, j: usize) -> bool
    requires { (i ≤ j) × (j < length s.now) }
    ensures { result ≡ offered kind s.now lo hi i j }
{
    let mid = middle(i, j);
    (left_clear(s, kind, i) && right_clear(s, kind, j)) && (lo..hi).contains(&mid)
}

// The last frame of the flat stretch from i on, as far as b. No method of `Part`: from a `Part` that it builds,
// `local_extrema` took up to 2 times as long.
fn flat_last(s: &[f32], i: usize, b: usize) -> usize
    requires { (i ≤ b) × (b < length s.now) }
    ensures { (result ≡ flat_last s.now i (b - i)) × ((i ≤ result) × (result ≤ b)) }
{
    first_from(|k| s[k + 1] != s[k], i, b).unwrap_or(b)
}

// Whether a flat stretch ends at frame j: so at the end of the track.
fn ends_at(s: &[f32], j: usize) -> bool
    requires { j < length s.now }
    ensures { result ≡ (leb (length s.now) (j + 1) || changes_after s.now j) }
{
    s.len() <= j + 1 || s[j + 1] != s[j]
}

// The strict local extrema of s that lie in lo..hi, as rising frames.
// A flat one counts once, at its middle; where it has no neighbour, at either end of s, that side is no matter.
// They are all that the lent list holds then: one that is returned lies on the stack twice more.
pub fn local_extrema<const N: usize>(
    s: &[f32],
    lo: usize,
    hi: usize,
    kind: Extremum,
    found: &mut ArrayVec<u32, N>,
)
    requires { (length s.now ≤ 2048) × (length s.now ≤ N) }
    ensures { found.new.items ≡ local_extrema s.now lo hi kind }
{
    found.clear();
    let mut i = 0;
    let mut j = 0;
    // A `while`: a flat stretch is passed at once. An own iterator, as `runs` has for two walks, is no plainer for one.
    while j < s.len() {
        if ends_at(s, j) {
            if is_offered(s, lo, hi, kind, i, j) {
                found.push(middle(i, j) as u32);
            }
            j += 1;
            i = j;
        } else {
            j = flat_last(s, j + 1, s.len() - 1);
        }
    }
}

// x if it is beyond m, else m.
fn further(kind: Extremum, m: f32, x: f32) -> f32
    ensures { result ≡ further kind m x }
{
    if is_beyond(kind, x, m) { x } else { m }
}

// The lower of two values, the first where they are equal.
// By hand: the library's `min` passes over a NaN that comes first, and may give either of two zeros.
pub fn lower(x: f32, y: f32) -> f32
    ensures { result ≡ lower x y }
{
    further(Extremum::Min, x, y)
}

// The infinity that every other value is beyond.
fn unreached(kind: Extremum) -> f32
    ensures { result ≡ unreached kind }
{
    match kind {
        Extremum::Max => f32::NEG_INFINITY,
        Extremum::Min => f32::INFINITY,
    }
}

// The part of a track from frame a to frame b, both in it.
#[derive(Clone, Copy)]
pub struct Part<'a> {
    pub s: &'a [f32],
    pub a: usize,
    pub b: usize,
    pub ghost inside: { (a ≤ b) × (b < length s.now) },
}

impl Part<'_> {
    // The highest value, or the lowest for a minimum.
    fn furthest(self, kind: Extremum) -> f32
        ensures { result ≡ furthest kind (slice self.entry.a (self.entry.b + 1) self.entry.s.now) }
    {
        let part = &self.s[self.a..self.b + 1];
        let mut m = unreached(kind);
        for x in part {
            m = further(kind, m, *x);
        }
        m
    }

    // The first frame that none is beyond.
    fn first_best(self, kind: Extremum) -> usize
        ensures { (result ≡ first_best kind self.entry.s.now self.entry.a self.entry.b)
            × ((self.entry.a ≤ result) × (result ≤ self.entry.b)) }
    {
        let m = self.furthest(kind);
        // A loop: with `first_from`, which looks at 16 frames together, 8 frames take 1.7 and 30 take 1.3 times as long.
        for i in self.a..self.b {
            if !is_beyond(kind, m, self.s[i]) {
                return i;
            }
        }
        self.b
    }

    // The frame of the highest value, or of the lowest for a minimum; of the frames with that value the middle of the first
    // stretch.
    pub fn extremum_middle(self, kind: Extremum) -> usize
        ensures { result ≡ extremum_middle kind self.entry.s.now self.entry.a self.entry.b }
    {
        let best = self.first_best(kind);
        middle(best, flat_last(self.s, best, self.b))
    }

    // Whether it is too shallow a valley for two peaks at its ends: no value falls as far as the dip below the lower of the
    // two.
    pub fn is_shallow(self, dip: f32) -> bool
        ensures { result ≡ shallow self.entry.s.now self.entry.a self.entry.b dip }
    {
        let peak = lower(self.s[self.a], self.s[self.b]);
        self.furthest(Extremum::Min) > peak - dip
    }
}
