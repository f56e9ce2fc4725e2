// Runs of voiced frames: voiced runs, long runs, syllable runs and the dropouts inside them, and the run that a frame belongs to.
// That a track has at most 2,048 frames, and that lists of runs are no longer and lie in it, is a `requires` and no type: C and
// files give plain slices, and a type round them would have to be made before each call.
#![tactic(auto)]

pub mod near;
pub mod syllables;
pub mod voiced;
