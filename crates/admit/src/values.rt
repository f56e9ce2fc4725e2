// Tests of one value, of every entry of a list, and of the settings. None asks anything of what it is given. They are
// joined by `&` and `|`, which do not branch, so that a loop over a track has no branch but its own.
ghost use Rattle.std.specs.Prelude.{◌≡◌, ◌&&◌, ◌+◌, leb, ltb, All};
ghost use Rattle.floats.specs.Plain.{is_between};
ghost use Rattle.admit.specs.Values.{number, db_admitted, pitch_admitted, mark_admitted, all_of, rising};

use floats::bits::to_bits;
use floats::plain::{is_finite, magnitude};
use region::Settings;

// From lo to hi, the ends included. A NaN is not.
// By hand: `contains` of a range tests its second end after a branch, and took 1.2 to 1.8 times as long.
fn within(x: f32, lo: f32, hi: f32) -> bool
    ensures { result ≡ is_between lo hi x }
{
    (lo <= x) & (x <= hi)
}

// A dB value may be no number at all; a number lies within -1,000 to 1,000.
fn db_admitted(d: f32) -> bool
    ensures { result ≡ db_admitted d }
{
    !is_finite(d) | within(magnitude(d), 0.0, 1000.0)
}

// No pitch, which is +0.0 and not -0.0, or one from lo to hi.
fn pitch_admitted(x: f32, lo: f32, hi: f32) -> bool
    ensures { result ≡ pitch_admitted lo hi x }
{
    (to_bits(x) == 0) | within(x, lo, hi)
}

// Margin and dip from 0 to 200 dB, and the gap.
pub fn settings_admitted(p: Settings) -> bool
    ensures { result ≡ (is_between (number 0) (number 200) p.margin && is_between (number 0) (number 200) p.dip &&
        leb p.gap 1000) }
{
    within(p.margin, 0.0, 200.0) & within(p.dip, 0.0, 200.0) & (p.gap <= 1000)
}

// Whether every entry of a list passes a test, which is asked of each entry, so that the loop has no branch but its own: `all`
// stops at the first that fails, and takes 1.4 times as long on a track from 0 to 1, 0.9 times on dB.
fn every<T: Copy, F: Fn(T) -> bool>(xs: &[T], test: F) -> bool
    requires { F.IsAlwaysCallable test }
    ensures { (p : _) → All (λ x. (b : _) → F.post test x b → b ≡ p x) xs.now → result ≡ all_of p xs.now }
{
    let mut good = true;
    for x in xs {
        good = good & test(*x);
    }
    good
}

// Every length, up to the most.
pub fn all_lengths(lengths: &[usize], most: usize) -> bool
    ensures { result ≡ all_of (λ n. leb n most) lengths.now }
{
    every(lengths, |n| n <= most)
}

// Every dB of a track.
pub fn all_db(db: &[f32]) -> bool
    ensures { result ≡ all_of db_admitted db.now }
{
    every(db, |d| db_admitted(d))
}

// Every pitch of a track.
pub fn all_pitches(pitch: &[f32], lo: f32, hi: f32) -> bool
    ensures { result ≡ all_of (pitch_admitted lo hi) pitch.now }
{
    every(pitch, |x| pitch_admitted(x, lo, hi))
}

// Every value of a track from lo to hi; -0.0 counts as 0.
pub fn all_within(track: &[f32], lo: f32, hi: f32) -> bool
    ensures { result ≡ all_of (is_between lo hi) track.now }
{
    every(track, |x| within(x, lo, hi))
}

// Every mark of a list.
pub fn all_marks(marks: &[u8]) -> bool
    ensures { result ≡ all_of mark_admitted marks.now }
{
    every(marks, |m| m <= 1)
}

// The frame after x.
fn after(x: u32) -> usize
    ensures { result ≡ x + 1 }
{
    x as usize + 1
}

// Whether x is a frame from lo on and below n.
fn is_frame(x: u32, lo: usize, n: usize) -> bool
    ensures { result ≡ (leb lo x && ltb x n) }
{
    let f = x as usize;
    (lo <= f) & (f < n)
}

// Whether frames rise strictly and stay below n.
pub fn is_rising(frames: &[u32], n: usize) -> bool
    ensures { result ≡ rising 0 n frames.now }
{
    let mut good = true;
    let mut lo = 0;
    for x in frames {
        good = good & is_frame(*x, lo, n);
        lo = after(*x);
    }
    good
}
