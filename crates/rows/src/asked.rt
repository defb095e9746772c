// What is asked of a row.
ghost use Rattle.std.specs.Prelude.{◌≡◌, Decides};
ghost use Rattle.rows.specs.Rows.{Wanted};

use crate::row::Row;
use sets::{has_place, some_place};
use ticket::Writing;

// A question to a row, beside a ticket. A value and not a closure: contracts name it, and each rule asks one of them.
#[derive(Clone, Copy)]
pub enum Test {
    // has it the ticket?
    Ticket,
    // the ticket, and this place in its set?
    Place(u32),
    // the ticket, and a set that is not empty?
    Filled,
    // the ticket and the mark?
    Marked,
    // another ticket?
    Other,
    // another ticket, and a set that is not empty?
    OtherFilled,
}

impl Test {
    // Does the row answer the question with yes?
    pub fn wanted(self, ticket: Writing, row: Row) -> bool
        ensures { Decides result (Wanted self ticket row) }
    {
        let same = row.ticket == ticket;
        match self {
            Test::Ticket => same,
            Test::Place(p) => same && has_place(row.set, p),
            Test::Filled => same && some_place(row.set),
            Test::Marked => same && row.mark,
            Test::Other => !same,
            Test::OtherFilled => !same && some_place(row.set),
        }
    }
}
