// The finite test, the size of a number, and values that take the place of others.
// The first two are names of ours over one call: the definitions of these names are what contracts and docs/CONTRACTS.md speak of.
ghost use Rattle.std.specs.Prelude.{◌≡◌};
ghost use Rattle.std.specs.Float.Ieee.Scale.{finite};
ghost use Rattle.floats.specs.Plain.{magnitude, or_zero, plain_zero};

// Whether d is neither a NaN nor an infinity.
pub fn is_finite(d: f32) -> bool
    ensures { result ≡ finite d }
{
    d.is_finite()
}

// x without its sign: of either zero +0.0, of a NaN a NaN.
pub fn magnitude(x: f32) -> f32
    ensures { result ≡ magnitude x }
{
    x.abs()
}

// x where it is finite, and +0.0 in the place of a NaN or an infinity.
pub fn or_zero(x: f32) -> f32
    ensures { result ≡ or_zero x }
{
    if is_finite(x) { x } else { 0.0 }
}

// x, with +0.0 in the place of -0.0.
pub fn plain_zero(x: f32) -> f32
    ensures { result ≡ plain_zero x }
{
    if x == 0.0 { 0.0 } else { x }
}
