// A page of text in ASCII, which is written from its front on.
ghost use Rattle.std.specs.Prelude.{◌≡◌, List, ℕ, [], ◌∷◌, ◌++◌, ◌+◌, ◌<◌, ◌≤◌, length};
ghost use Rattle.std.specs.Float.{binary32};
ghost use Rattle.std.specs.Float.Ieee.{to_bits};
ghost use Rattle.take.specs.Text.{hex, decimal};

use arrayvec::ArrayVec;
use std::marker::Model;

// The bytes that are written so far, of which there can be N. Contracts see them as a list.
#[derive(Drop)]
pub struct Page<const N: usize> {
    bytes: ArrayVec<u8, N>,
}

impl<const N: usize> Model for Page<N> {
    ghost Value = { List ℕ };

    ghost view = { λ p. p.bytes.items };
}

impl<const N: usize> Page<N> {
    pub fn new() -> Page<N>
        ensures { result ≡ [] }
    {
        Page {
            bytes: ArrayVec::new(),
        }
    }

    // Takes back all that is written.
    pub fn clear(&mut self)
        ensures { self.new ≡ [] }
    {
        self.bytes.clear();
    }

    pub fn as_slice(&self) -> &[u8]
        ensures { result.now ≡ self.now }
    {
        self.bytes.as_slice()
    }

    pub fn byte(&mut self, b: u8)
        requires { length self.old < N }
        ensures { self.new ≡ self.old ++ b ∷ [] }
    {
        self.bytes.push(b);
    }

    pub fn text(&mut self, text: &[u8])
        requires { length self.old + length text.now ≤ N }
        ensures { self.new ≡ self.old ++ text.now }
    {
        // One by one: a text is a few bytes long, and the library's copy asks C for `memmove`.
        for b in text {
            self.byte(*b);
        }
    }

    // A space and a decimal number.
    pub fn number(&mut self, n: u32)
        requires { length self.old + length (32 ∷ decimal n) ≤ N }
        ensures { self.new ≡ self.old ++ 32 ∷ decimal n }
    {
        self.byte(b' ');
        self.text(itoa::Buffer::new().format(n).as_bytes());
    }

    // A space and the bits of an f32, in hexadecimal digits.
    pub fn bits(&mut self, x: f32)
        requires { length self.old + length (32 ∷ hex (to_bits binary32 x)) ≤ N }
        ensures { self.new ≡ self.old ++ 32 ∷ hex (to_bits binary32 x) }
    {
        let mut digits = [0u8; 8];
        hex::encode_to_slice(floats::bits::to_bits(x).to_be_bytes(), &mut digits).unwrap();
        self.byte(b' ');
        self.text(&digits);
    }
}
