// Writing packets.
#![tactic(auto)]

mod putting;
mod sizes;
mod writing;

pub use writing::{write, write_put, write_report, write_row};
