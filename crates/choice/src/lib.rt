// What the reports of a quorum let a unit put in a new view.
#![tactic(auto)]

mod choice;
mod choosing;
mod laws;
mod lives;

pub use choice::Choice;
pub use choosing::choose;
pub use laws::{choice_is_of_live, choice_is_one, samples_hold};
