// Messages of a unit go out to all.
#![tactic(auto)]

mod sending;

pub use sending::go_out;
