// Tables: what an input brings, as the functions take it, and room for what is lent to them; and parts of both. A part that
// a table does not have is all of it, which no call comes to that the reference answers.
// Tables and no `ArrayVec`: one that is returned lies on the stack three times, here of up to 655 KB.
use super::fields::{float, half};

// What an entry that is lent holds before: it is looked for after the call, past the count too.
pub const UNTOUCHED: u32 = 0xeeee_eeee;

// Room for what is lent.
pub const ROOM: usize = 2560;

// The first n entries.
pub fn first<T>(xs: &[T], n: usize) -> &[T] {
    &xs[..n.min(xs.len())]
}

// The first n entries, to be written.
pub fn first_mut<T>(xs: &mut [T], n: usize) -> &mut [T] {
    let n = n.min(xs.len());
    &mut xs[..n]
}

// The entries from one on.
pub fn rest<T>(xs: &[T], at: usize) -> &[T] {
    xs.get(at..).unwrap_or(xs)
}

// The n entries from one on.
pub fn part<T>(xs: &[T], at: usize, n: usize) -> &[T] {
    xs.get(at..).and_then(|ys| ys.get(..n)).unwrap_or(xs)
}

// Every field of some bytes as an f32.
pub fn floats_in(bytes: &[u8]) -> [f32; 16384] {
    let mut table = [0.0f32; 16384];
    for (i, x) in first_mut(&mut table, bytes.len() / 4)
        .iter_mut()
        .enumerate()
    {
        *x = float(bytes, i);
    }
    table
}

// n samples: the stored ones over and over.
pub fn samples_in(stored: &[u8], n: usize) -> [i16; 327744] {
    let mut table = [0i16; 327744];
    let count = stored.len() / 2;
    if count > 0 {
        for (i, x) in first_mut(&mut table, n).iter_mut().enumerate() {
            *x = half(stored, i % count);
        }
    }
    table
}
