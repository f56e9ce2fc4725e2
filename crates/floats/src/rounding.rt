// Rust's `x as f32` of an f64, where the language's own `as` asks that nothing is lost.
ghost use Rattle.std.specs.Prelude.{◌≡◌};
ghost use Rattle.floats.specs.Narrow.{narrow};

// The f32 nearest to x, at a tie the one with the even last digit; an infinity past the largest f32.
pub fn round_to_f32(x: f64) -> f32
    ensures { result ≡ narrow x }
{
    std::num::nearest_f64_to_f32_with_nan(x)
}
