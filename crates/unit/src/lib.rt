// One control unit: its state, its rules, and what it sends.
#![tactic(auto)]

mod actions;
mod announcement;
mod cells;
mod fault;
mod hearing;
mod laws;
mod letter;
mod putting;
mod reading;
mod receiving;
mod reported;
mod reports;
mod stage;
mod state;

pub use announcement::Announcement;
pub use fault::UnitFault;
pub use laws::{left_rows_stay, rows_only_grow};
pub use letter::{Letter, Sends};
pub use stage::Stage;
pub use state::ControlUnit;
