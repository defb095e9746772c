// Packets: what units say to each other, in bytes.
#![tactic(auto)]

mod entries;
mod fault;
mod kind;
mod message;
mod place;
mod questions;
mod reading;
mod report;
mod row_questions;

pub use fault::PacketFault;
pub use kind::Kind;
pub use message::{ENTRIES_OFFSET, Message, Report};
pub use reading::read;
pub use row_questions::names_listed;
