// Exact comparisons of powers of pitches.
#![tactic(auto)]

pub mod limbs;
pub mod pitch;
