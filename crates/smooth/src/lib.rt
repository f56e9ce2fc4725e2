// The level of a track, its local extrema, and its valleys.
// That a track has at most 2,048 frames is a `requires` and no type: C and files give plain slices, and a type round them
// would have to be made before each call.
#![tactic(auto)]

pub mod extrema;
pub mod level;
