// Floats and their bit patterns, at every pattern and every value. The contracts know one NaN, so each
// pattern of a NaN reads as that one, and it is written as the pattern with only the highest digit set.
// Each is one call of the library under a shorter name: they say which reading of a NaN is meant in one place, where the
// wrong program that reads an infinity as a NaN is refused; two types and no trait, as each is one call.
ghost use Rattle.std.specs.Prelude.{◌≡◌};
ghost use Rattle.std.specs.Float.{binary32, binary64};
ghost use Rattle.std.specs.Float.Ieee.{of_bits, to_bits};

// The f32 of a pattern.
pub fn from_bits(b: u32) -> f32
    ensures { result ≡ of_bits binary32 b }
{
    std::num::f32_from_bits_with_nan(b)
}

// The pattern of an f32.
pub fn to_bits(x: f32) -> u32
    ensures { result ≡ to_bits binary32 x }
{
    std::num::f32_to_bits_with_nan(x)
}

// The f64 of a pattern.
pub fn f64_from_bits(b: u64) -> f64
    ensures { result ≡ of_bits binary64 b }
{
    std::num::f64_from_bits_with_nan(b)
}

// The pattern of an f64.
pub fn f64_to_bits(x: f64) -> u64
    ensures { result ≡ to_bits binary64 x }
{
    std::num::f64_to_bits_with_nan(x)
}
