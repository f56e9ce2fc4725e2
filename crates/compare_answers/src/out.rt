// The bytes of an answer. Nothing here asks anything of the caller: what has no room is not written, and counts all the same.
use super::tables::UNTOUCHED;
use floats::bits::to_bits;

// The bytes from the front of a lent list, and how many they are.
#[derive(Drop)]
pub struct Out<'a> {
    bytes: &'a mut [u8],
    len: usize,
}

// What has a field of four bytes.
pub trait Field: Copy {
    fn pattern(self) -> u32;
}

impl Field for u32 {
    fn pattern(self) -> u32 {
        self
    }
}

impl Field for f32 {
    fn pattern(self) -> u32 {
        to_bits(self)
    }
}

impl<'a> Out<'a> {
    pub fn new(bytes: &'a mut [u8]) -> Out<'a> {
        Out { bytes, len: 0 }
    }

    pub fn len(&self) -> usize {
        self.len
    }

    fn byte(&mut self, b: u8) {
        if let Some(place) = self.bytes.get_mut(self.len) {
            *place = b;
        }
        self.len = self.len.wrapping_add(1);
    }

    // The last bytes of x, as many as `size`, 8 at most.
    pub fn number(&mut self, size: usize, x: u64) {
        for b in &x.to_be_bytes()[8 - size.min(8)..] {
            self.byte(*b);
        }
    }

    // A byte 1 and the number, or a byte 0 and 0 in the number's place.
    pub fn option(&mut self, size: usize, x: Option<u64>) {
        self.number(1, x.is_some() as u64);
        self.number(size, x.unwrap_or(0));
    }

    pub fn fields<T: Field>(&mut self, xs: &[T]) {
        for x in xs {
            self.number(4, u64::from(x.pattern()));
        }
    }

    // Nuclei, a frame and a strength each.
    pub fn nuclei(&mut self, frames: &[u32], strengths: &[f32]) {
        for (frame, strength) in frames.iter().zip(strengths) {
            self.fields(&[*frame]);
            self.fields(&[*strength]);
        }
    }

    // A field of each of a list's entries, and what is untouched in the places after them, of n in all.
    pub fn column<T: Copy, F: Fn(T) -> u32>(&mut self, xs: &[T], n: usize, field: F)
        requires { F.IsAlwaysCallable field }
    {
        for x in xs {
            self.fields(&[field(*x)]);
        }
        for _ in xs.len()..n {
            self.fields(&[UNTOUCHED]);
        }
    }

    // Bytes, and none of them where there is no room for all.
    pub fn bytes(&mut self, bytes: &[u8]) {
        if self.len <= self.bytes.len() && bytes.len() <= self.bytes.len() - self.len {
            let end = self.len + bytes.len();
            // By index: `copy_from_slice` asks C for `memmove` here.
            let place = &mut self.bytes[self.len..end];
            for i in 0..bytes.len() {
                place[i] = bytes[i];
            }
            self.len = end;
        }
    }
}
