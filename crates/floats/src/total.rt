// IEEE 754's total order on f32: every value has a place, -0.0 right before +0.0, and a NaN after
// +infinity. Two values stand in the order of their places, and no two share one.
// Places and no `total_cmp`: they are counted, halved and sorted as whole numbers.
ghost use Rattle.std.specs.Prelude.{◌≡◌};
ghost use Rattle.floats.specs.Total.{placed, total_key, finite_key, value_of};

use super::bits::{from_bits, to_bits};
use super::plain::is_finite;

// Where the value of the pattern b stands.
fn place(b: u32) -> u32
    ensures { result ≡ placed b }
{
    if 0x8000_0000 <= b {
        0xffff_ffff - b
    } else {
        0x8000_0000 + b
    }
}

// Where x stands.
pub fn total_key(x: f32) -> u32
    ensures { result ≡ total_key x }
{
    place(to_bits(x))
}

// Where x stands if it is finite, else a place past those of all finite values. A number and no `Option`: keys are sorted and
// counted as whole numbers, and those that are not finite come last.
pub fn finite_key(x: f32) -> u32
    ensures { result ≡ finite_key x }
{
    if is_finite(x) {
        total_key(x)
    } else {
        0xffff_ffff
    }
}

// The value that stands at k.
pub fn from_total_key(k: u32) -> f32
    ensures { result ≡ value_of k }
{
    let b = if 0x8000_0000 <= k {
        k - 0x8000_0000
    } else {
        0xffff_ffff - k
    };
    from_bits(b)
}
