// The program: one order of the mill, from its table on. Each part prints what it did and what came of it.
#![tactic(auto)]

mod units;

use mill::{change_table, check_tables, mill_table, rose_damask, show_tickets, show_wires};
use std::io;
use ticket::Ticket;

fn main(rt: HostRuntime) -> io::Result<()> {
    check_tables(&rt)?;
    change_table(&rt)?;
    show_tickets(&rt)?;
    // the units agree on the rose damask
    let ticket = rose_damask().writing();
    show_wires(&rt, ticket)?;
    units::show_units(&rt, &mill_table(), ticket)
}
