// Lists of whole numbers: sorting, and which frames a list holds. How many entries pass a test, and the first frame that does.
#![tactic(auto)]

pub mod candidates;
pub mod count;
pub mod first;
pub mod marks;
pub mod sort;
