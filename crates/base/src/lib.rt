// What every part of the library shares: the limits, and what a fault says.
#![tactic(auto)]

mod fault;
mod limits;

pub use fault::{Fault, FaultCode, Layer};
pub use limits::{FAULT_SETS, PACKET_BYTES, QUORUMS, UNIT_COUNT, UNITS, VIEW_COUNT, VIEWS};
