// An input. Nothing here asks anything of the caller: a part that an input does not have is all of it, which no call comes to
// that the reference answers.
ghost use Rattle.std.specs.Prelude.{◌≤◌, length};

use super::fields::{float, settings_in, size, total, word};
use super::tables::{ROOM, UNTOUCHED, part, rest};
use region::Settings;

// The bytes, and their fields of four bytes as floats.
#[derive(Clone, Copy)]
pub struct Input<'a> {
    pub bytes: &'a [u8],
    pub floats: &'a [f32],
}

impl<'a> Input<'a> {
    // The k-th field as a number.
    pub fn word(self, k: usize) -> u32 {
        word(self.bytes, k)
    }

    // The k-th field as a count, a room or a frame.
    pub fn size(self, k: usize) -> usize {
        size(self.bytes, k)
    }

    // The k-th field as an f32.
    pub fn float(self, k: usize) -> f32 {
        float(self.bytes, k)
    }

    // How many entries come before those that the field `last` counts, where the counts begin at the field `first`.
    pub fn total(self, first: usize, last: usize) -> usize {
        total(self.bytes, first, last)
    }

    // The settings, which come first where a call has them.
    pub fn settings(self) -> Settings {
        settings_in(self.bytes)
    }

    // What comes after the settings.
    pub fn after_settings(self) -> Input<'a> {
        Input {
            bytes: rest(self.bytes, 12),
            floats: rest(self.floats, 3),
        }
    }

    // The fields from one on as floats.
    pub fn floats_from(self, from: usize) -> &'a [f32] {
        rest(self.floats, from)
    }

    // The fields from one on, where they are no more than a take has frames; else none.
    pub fn frames_from(self, from: usize) -> &'a [f32]
        ensures { length result.now ≤ 2048 }
    {
        if from <= self.floats.len() && self.floats.len() - from <= 2048 {
            &self.floats[from..]
        } else {
            &self.floats[..0]
        }
    }

    // The track whose count is the k-th field, where the fields from `from` to before `base` are the counts.
    pub fn track(self, from: usize, base: usize, k: usize) -> &'a [f32] {
        part(
            self.floats,
            base.wrapping_add(self.total(from, k)),
            self.size(k),
        )
    }

    // The fields from one on as numbers.
    pub fn words_from(self, from: usize) -> [u32; ROOM] {
        let mut table = [UNTOUCHED; ROOM];
        for (i, x) in table.iter_mut().enumerate() {
            *x = self.word(from.wrapping_add(i));
        }
        table
    }

    // The bytes that follow some fields.
    pub fn bytes_after(self, base: usize, fields: usize) -> &'a [u8] {
        let n = base.wrapping_add(fields);
        if n <= self.bytes.len() / 4 {
            &self.bytes[4 * n..]
        } else {
            self.bytes
        }
    }
}
