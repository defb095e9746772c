// Quorum tables: fault sets, quorums of three classes, and the check that a table must pass.
#![tactic(auto)]

mod check;
mod fault;
mod laws;
mod passed;
mod question;
mod quorum;
mod reads;
mod table;

pub use fault::TableFault;
pub use laws::{fault_is_one, passed_is_proper, proper_has_no_fault, samples_hold};
pub use passed::Passed;
pub use quorum::Quorum;
pub use table::Table;
