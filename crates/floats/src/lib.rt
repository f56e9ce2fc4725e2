// Floats of 32 and 64 bits: their bit patterns, rounding from f64 to f32, the total order, and plain zeros.
#![tactic(auto)]

pub mod bits;
pub mod plain;
pub mod rounding;
pub mod total;
