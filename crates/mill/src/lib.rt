// The mill: its table, the order's plan, and the lines on tables, tickets and wires that both programs print.
#![tactic(auto)]

mod tables;
mod tickets;
mod wires;

pub use tables::{change_table, check_tables, mill_table};
pub use tickets::{rose_damask, show_tickets};
pub use wires::show_wires;
