// Puts: the unit's own, and one that arrives.
ghost use Rattle.std.specs.Prelude.{◌≡◌, ◌%◌, Some, None, Decides, MatchResult};
ghost use Rattle.base.specs.Asked.{Asked};
ghost use Rattle.table.specs.Means.{means as table_of};
ghost use Rattle.unit.specs.States.{means};
ghost use Rattle.unit.specs.Reported.{ticket_by, put_ticket};
ghost use Rattle.unit.specs.Rules.{put_fault, on_put, own_put_fault, on_own_put};
ghost use Rattle.unit.specs.Sending.{sends_put};

use crate::fault::UnitFault;
use crate::letter::Sends;
use crate::state::ControlUnit;
use choice::Choice;
use rows::Row;
use table::Passed;
use ticket::Writing;

// Does the unit lead the view?
fn leads(passed: &Passed<'_>, unit: u32, view: u32) -> bool
    ensures { Decides result (view % (table_of passed.now).units ≡ unit) }
{
    view % passed.units() == unit
}

// What the choice puts where a ticket was handed in.
fn ticket_by(choice: Choice<Writing>, ticket: Writing) -> Writing
    ensures { result ≡ ticket_by choice ticket }
{
    match choice {
        Choice::Only(held) => held,
        Choice::Free | Choice::Torn => ticket,
    }
}

impl ControlUnit {
    // The ticket that the unit puts where this one was handed in, if it may put.
    fn chosen(&self, passed: &Passed<'_>, me: u32, ticket: Writing) -> Result<Writing, UnitFault>
        ensures { MatchResult result
            (λ chosen. (own_put_fault (table_of passed.now) me (means self.now) ≡ None) × (chosen ≡ put_ticket (table_of passed.now) (means self.now) ticket))
            (λ e. own_put_fault (table_of passed.now) me (means self.now) ≡ Some e) }
    {
        if !leads(passed, me, self.view) {
            return Err(UnitFault::NotLeading(me));
        }
        if self.put.is_some() {
            return Err(UnitFault::PutBefore(me));
        }
        if self.view == 0 {
            return Ok(ticket);
        }
        if !self.some_fully(passed) {
            return Err(UnitFault::NotReported(me));
        }
        let q = self.first_deciding(passed).ok_or(UnitFault::AllTorn(me))?;
        Ok(ticket_by(self.choice_of(passed, q), ticket))
    }

    // May a put be taken that arrives under the sender's number for the view?
    pub(crate) fn check_put(
        &self,
        passed: &Passed<'_>,
        sender: u32,
        view: u32,
        ticket: Writing,
    ) -> Result<(), UnitFault>
        ensures { Asked (put_fault (table_of passed.now) sender view ticket (means self.now)) result }
    {
        if !leads(passed, sender, view) {
            return Err(UnitFault::PutByOther(sender));
        }
        if view != self.view {
            return Err(UnitFault::PutForOther(sender));
        }
        if self.own_in_view().is_some() {
            return Err(UnitFault::RowThere(sender));
        }
        if self.view > 0 && !self.some_allows(passed, ticket) {
            return Err(UnitFault::NotChosen(sender));
        }
        Ok(())
    }

    // The own row becomes the ticket with an empty set and no mark, and grows.
    pub(crate) fn take_put(&mut self, passed: &Passed<'_>, ticket: Writing)
        ensures { means self.new ≡ on_put (table_of passed.now) ticket (means self.old) }
    {
        let row = Row {
            ticket,
            set: 0,
            mark: false,
        };
        self.own[self.view as usize] = Some(row);
        self.grow_own(passed);
    }

    // Puts a ticket, or what the reports ask for in its place. The put goes out.
    pub fn put(&mut self, passed: &Passed<'_>, me: u32, ticket: Writing) -> Result<Sends, UnitFault>
        ensures { MatchResult result
            (λ sends. (own_put_fault (table_of passed.now) me (means self.old) ≡ None)
            × (means self.new ≡ on_own_put (table_of passed.now) ticket (means self.old)) × (sends ≡ sends_put))
            (λ e. (own_put_fault (table_of passed.now) me (means self.old) ≡ Some e) × (means self.new ≡ means self.old)) }
    {
        let chosen = self.chosen(passed, me, ticket)?;
        self.put = Some(chosen);
        Ok(Sends::PUT)
    }
}
