// The take file and the listing of a take's marks, on bytes.
// That a take has at most 2,048 frames is what `take_refusal` decides, and for what is listed it stands in the type `Told`.
// That a file is as long as its head says is a `requires` of what reads it: `take_refusal` sees the first bytes and a size, not
// the file.
#![tactic(auto)]

pub mod fields;
pub mod file;
pub mod listing;
pub mod text;
pub mod told;
