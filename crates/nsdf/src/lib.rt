// How well 16-bit samples repeat at a lag, by the normalised square-difference function of McLeod and Wyvill,
// "A Smarter Way to Find Pitch", and the pitch that the repetition gives. A take has 16,000 samples a second.
#![tactic(auto)]

pub mod period;
pub mod periodicity;
pub mod sums;
