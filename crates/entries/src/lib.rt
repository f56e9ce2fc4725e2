// Marks of a spoken take, for callers: every entry takes any input, and refuses what the stages behind it do not admit.
#![tactic(auto)]

pub mod stages;
