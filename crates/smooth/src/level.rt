// The level of a track: dB smoothed over five frames.
ghost use Rattle.std.specs.Prelude.{◌≡◌, map, ◌+◌, ◌-◌, ◌<◌, ◌≤◌, min, length};
ghost use Rattle.std.proofs.Math.Seq.{slice};
ghost use Rattle.lists.specs.Results.{overlay, replaced};
ghost use Rattle.smooth.specs.Level.{clean, five_around, mean_of, means, levels};

use floats::plain::{is_finite, plain_zero};

// What a frame's dB reads as: digital silence where it is no finite number.
fn clean(d: f32) -> f32
    ensures { result ≡ clean d }
{
    if is_finite(d) { d } else { -100.0 }
}

// Writes what each frame of db reads as to the front of c.
// By index, as all lists here: `iter_mut` with `zip` takes 1.4 times as long.
fn clean_all(db: &[f32], c: &mut [f32])
    requires { length db.now ≤ length c.old }
    ensures { c.new ≡ overlay (map clean db.now) c.old }
{
    for (i, d) in db.iter().enumerate() {
        c[i] = clean(*d);
    }
}

// The mean of the entries from a on and before b, a zero as +0.0; of none a NaN.
pub fn mean(xs: &[f32], a: usize, b: usize) -> f32
    requires { (a ≤ b) × (b ≤ length xs.now) × (b ≤ a + 5) }
    ensures { result ≡ mean_of (slice a b xs.now) }
{
    let part = &xs[a..b];
    let mut sum = 0.0f32;
    for x in part {
        sum += *x;
    }
    plain_zero(sum / (part.len() as f32))
}

// The mean of the frames around frame i, of as many of the five as there are.
fn mean_around(c: &[f32], i: usize) -> f32
    requires { i < length c.now }
    ensures { result ≡ mean_of (five_around c.now i) }
{
    mean(c, i.saturating_sub(2), (i + 3).min(c.len()))
}

// The mean of the five frames around frame i, which has two frames on either side. It has no loop of its own, so that the
// loop over such frames runs over several of them at once.
fn mean_of_five(c: &[f32], i: usize) -> f32
    requires { (2 ≤ i) × (i + 2 < length c.now) }
    ensures { result ≡ mean_of (five_around c.now i) }
{
    plain_zero((0.0 + c[i - 2] + c[i - 1] + c[i] + c[i + 1] + c[i + 2]) / 5.0)
}

// Writes the mean around each frame from a on and before b, at its place.
fn some_means(c: &[f32], a: usize, b: usize, out: &mut [f32])
    requires { (a ≤ b) × (b ≤ length c.now) × (length c.now ≤ length out.old) }
    ensures { out.new ≡ replaced a b (means c.now) out.old }
{
    for i in a..b {
        out[i] = mean_around(c, i);
    }
}

// Writes the mean around each frame that has two frames on either side, at its place.
fn inner_means(c: &[f32], out: &mut [f32])
    requires { (5 ≤ length c.now) × (length c.now ≤ length out.old) }
    ensures { out.new ≡ replaced 2 (length c.now - 2) (means c.now) out.old }
{
    for i in 2..c.len() - 2 {
        out[i] = mean_of_five(c, i);
    }
}

// Writes the mean around each frame to the front of out.
fn all_means(c: &[f32], out: &mut [f32])
    requires { length c.now ≤ length out.old }
    ensures { out.new ≡ overlay (means c.now) out.old }
{
    let n = c.len();
    if n < 5 {
        some_means(c, 0, n, out);
        return;
    }
    some_means(c, 0, 2, out);
    inner_means(c, out);
    some_means(c, n - 2, n, out);
}

// Writes the level of each frame to the front of out, whose entries past them stay.
// To a slice: a lent `ArrayVec` that each frame is pushed to takes 1.1 times as long.
pub fn smoothed_db(db: &[f32], out: &mut [f32])
    requires { (length db.now ≤ length out.old) × (length db.now ≤ 2048) }
    ensures { out.new ≡ overlay (levels db.now) out.old }
{
    // A table and its part: each frame has an entry, which is written at its place; there is no heap.
    let mut c = [0.0f32; 2048];
    clean_all(db, &mut c);
    all_means(&c[..db.len()], out);
}
