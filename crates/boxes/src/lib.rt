// A wire with a box of its own for each unit.
#![tactic(auto)]

mod boxes;

pub use boxes::{Boxes, PLACES};
