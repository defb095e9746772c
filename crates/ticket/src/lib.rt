// Tickets: what a kind of ticket means, plans and piece orders, and their writings.
#![tactic(auto)]

mod bounds;
mod bytes;
mod fault;
mod kind;
mod order;
mod orders;
mod plan;
mod plans;
mod reading;
mod samples;
mod writing;

pub use bounds::{ENDS, LOOMS, PICKS};
pub use bytes::{bytes_of, word_at, writing_of};
pub use fault::TicketFault;
pub use kind::Ticket;
pub use order::{Looms, Order, Pick};
pub use plan::Plan;
pub use reading::{read, ticket_back, write};
pub use samples::ends_samples;
pub use writing::Writing;
