// Numbers in bytes, the most significant byte first. Nothing here asks anything of the caller: what lies past the end reads
// as 0.
use region::Settings;

// The k-th field of four bytes.
pub fn word(s: &[u8], k: usize) -> u32 {
    if k < s.len() / 4 {
        return take::fields::word_at(s, 4 * k);
    }
    0
}

// The k-th field as a count, a room or a frame.
pub fn size(s: &[u8], k: usize) -> usize {
    word(s, k) as usize
}

// The sum of the counts from one field to before another: how many entries come before those that the last counts. Nothing
// that a table has room for comes near the sum that wraps.
pub fn total(s: &[u8], first: usize, last: usize) -> usize {
    let mut sum: usize = 0;
    for k in first..last {
        sum = sum.wrapping_add(size(s, k));
    }
    sum
}

// The k-th pair of fields as one number.
pub fn long(s: &[u8], k: usize) -> u64 {
    if k < s.len() / 8 {
        let at = 8 * k;
        return u64::from_be_bytes([
            s[at],
            s[at + 1],
            s[at + 2],
            s[at + 3],
            s[at + 4],
            s[at + 5],
            s[at + 6],
            s[at + 7],
        ]);
    }
    0
}

// The k-th number of two bytes, with a sign.
pub fn half(s: &[u8], k: usize) -> i16 {
    if k < s.len() / 2 {
        return i16::from_be_bytes([s[2 * k], s[2 * k + 1]]);
    }
    0
}

// The k-th field as an f32.
pub fn float(s: &[u8], k: usize) -> f32 {
    floats::bits::from_bits(word(s, k))
}

// The settings, which come first where a call has them.
pub fn settings_in(s: &[u8]) -> Settings {
    Settings {
        margin: float(s, 0),
        dip: float(s, 1),
        gap: word(s, 2),
    }
}
