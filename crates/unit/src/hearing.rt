// A row arrives: it is noted, the own row grows, and the announcement is tested.
ghost use Rattle.std.specs.Prelude.{◌≡◌};
ghost use Rattle.base.specs.Asked.{Asked};
ghost use Rattle.table.specs.Means.{means as table_of};
ghost use Rattle.unit.specs.States.{means, heard_at};
ghost use Rattle.unit.specs.Rules.{noted, ticket_fault, hear, grow_own, announce, on_row};

use crate::announcement::Announcement;
use crate::cells::set_cell;
use crate::fault::UnitFault;
use crate::state::ControlUnit;
use base::VIEWS;
use growth::{grow, least_rule};
use rows::Row;
use table::Passed;
use ticket::Writing;

// What is held of a sender once a row arrives.
fn noted(held: Option<Row>, row: Row) -> Row
    ensures { result ≡ noted held row }
{
    held.map_or(
        row,
        |old| Row {
            ticket: old.ticket,
            set: old.set | row.set,
            mark: old.mark || row.mark,
        },
    )
}

impl ControlUnit {
    // Does the row's ticket agree with what was heard of the sender in the view?
    pub(crate) fn check_row(&self, sender: u32, view: u32, row: Row) -> Result<(), UnitFault>
        ensures { Asked (ticket_fault sender (heard_at (means self.now) view sender) row) result }
    {
        match self.heard_row(view, sender) {
            Some(heard) if heard.ticket != row.ticket => Err(UnitFault::OtherTicket(sender)),
            _ => Ok(()),
        }
    }

    // The row is noted.
    fn hear_row(&mut self, sender: u32, view: u32, row: Row)
        ensures { means self.new ≡ hear sender view row (means self.old) }
    {
        let heard = self.heard_row(view, sender);
        set_cell(&mut self.heard, view, sender, Some(noted(heard, row)));
    }

    // The own row of the unit's view grows, if there is one: that element is lent, the others stay.
    pub(crate) fn grow_own(&mut self, passed: &Passed<'_>)
        ensures { means self.new ≡ grow_own (table_of passed.now) (means self.old) }
    {
        let view = self.view as usize;
        if let Some(row) = &mut self.own[view] {
            grow(passed, &self.heard[view], row);
        }
    }

    // The announcement is tested by what was heard in the view, if there is none yet.
    fn test_announcement(&mut self, passed: &Passed<'_>, view: u32, ticket: Writing)
        ensures { means self.new ≡ announce (table_of passed.now) view ticket (means self.old) }
    {
        if self.announced.is_none() && view < VIEWS {
            self.announced = least_rule(passed, &self.heard[view as usize], ticket).map(
                |rule| Announcement { ticket, view, rule },
            );
        }
    }

    // The row is noted, lets the own row grow in the unit's view, and may be announced.
    pub(crate) fn take_row(&mut self, passed: &Passed<'_>, sender: u32, view: u32, row: Row)
        ensures { means self.new ≡ on_row (table_of passed.now) sender view row (means self.old) }
    {
        self.hear_row(sender, view, row);
        if view == self.view {
            self.grow_own(passed);
        }
        self.test_announcement(passed, view, row.ticket);
    }
}
