// A wire whose places are shared by all units.
#![tactic(auto)]

mod bus;
mod entry;

pub use bus::{Bus, PLACES};
pub use entry::BusSlot;
