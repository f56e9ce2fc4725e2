// Numbers in bytes, the most significant byte first.
ghost use Rattle.std.specs.Prelude.{◌≡◌, ◌+◌, ◌<◌, ◌≤◌, length};
ghost use Rattle.take.specs.Fields.{half_at, word_at, float_at};

// The number of the two bytes from `at` on.
pub fn half_at(s: &[u8], at: usize) -> u32
    requires { at + 2 ≤ length s.now }
    ensures { (result ≡ half_at s.now at) × (result < 65536) }
{
    u32::from(u16::from_be_bytes([s[at], s[at + 1]]))
}

// The number of the four bytes from `at` on.
pub fn word_at(s: &[u8], at: usize) -> u32
    requires { at + 4 ≤ length s.now }
    ensures { result ≡ word_at s.now at }
{
    u32::from_be_bytes([s[at], s[at + 1], s[at + 2], s[at + 3]])
}

// The f32 whose pattern the four bytes from `at` on are.
pub fn float_at(s: &[u8], at: usize) -> f32
    requires { at + 4 ≤ length s.now }
    ensures { result ≡ float_at s.now at }
{
    floats::bits::from_bits(word_at(s, at))
}
