// A letter arrives.
ghost use Rattle.std.specs.Prelude.{◌≡◌, Some, None, MatchResult};
ghost use Rattle.table.specs.Means.{means as table_of};
ghost use Rattle.unit.specs.States.{means, own_at, heard_at};
ghost use Rattle.unit.specs.Rules.{put_fault, on_put, ticket_fault, on_row, report_fault, on_report};
ghost use Rattle.unit.specs.Sending.{sends_row, sends_nothing};
ghost use Rattle.unit.specs.Letters.{sends_changed, letter_fault, letter_done, letter_sends};

use crate::fault::UnitFault;
use crate::letter::{Letter, Sends};
use crate::state::ControlUnit;
use base::VIEW_COUNT;
use rows::Row;
use table::Passed;
use ticket::Writing;

impl ControlUnit {
    // A put arrives: what a letter carries is handed on by itself, since each kind of letter carries something else.
    fn on_put(
        &mut self,
        passed: &Passed<'_>,
        sender: u32,
        view: u32,
        ticket: Writing,
    ) -> Result<Sends, UnitFault>
        ensures { MatchResult result
            (λ sends. (put_fault (table_of passed.now) sender view ticket (means self.old) ≡ None)
            × (means self.new ≡ on_put (table_of passed.now) ticket (means self.old)) × (sends ≡ sends_row))
            (λ e. (put_fault (table_of passed.now) sender view ticket (means self.old) ≡ Some e) × (means self.new ≡ means self.old)) }
    {
        self.check_put(passed, sender, view, ticket)?;
        self.take_put(passed, ticket);
        Ok(Sends::ROW)
    }

    // A row arrives. The own row goes out if it grew.
    fn on_row(
        &mut self,
        passed: &Passed<'_>,
        sender: u32,
        view: u32,
        row: Row,
    ) -> Result<Sends, UnitFault>
        ensures { MatchResult result
            (λ sends. (ticket_fault sender (heard_at (means self.old) view sender) row ≡ None)
            × (means self.new ≡ on_row (table_of passed.now) sender view row (means self.old))
            × (sends ≡ sends_changed (own_at (means self.old) (means self.old).view) (own_at (on_row (table_of passed.now) sender view row (means self.old)) (means self.old).view)))
            (λ e. (ticket_fault sender (heard_at (means self.old) view sender) row ≡ Some e) × (means self.new ≡ means self.old)) }
    {
        self.check_row(sender, view, row)?;
        let before = self.own_in_view();
        self.take_row(passed, sender, view, row);
        Ok(Sends {
            row: before != self.own_in_view(),
            ..Sends::NOTHING
        })
    }

    // A report arrives.
    fn on_report(
        &mut self,
        sender: u32,
        view: u32,
        rows: &[Option<Row>; VIEW_COUNT],
    ) -> Result<Sends, UnitFault>
        ensures { MatchResult result
            (λ sends. (report_fault sender view rows.now (means self.old) ≡ None)
            × (means self.new ≡ on_report sender rows.now (means self.old)) × (sends ≡ sends_nothing))
            (λ e. (report_fault sender view rows.now (means self.old) ≡ Some e) × (means self.new ≡ means self.old)) }
    {
        self.check_report(sender, view, rows)?;
        self.keep_report(sender, rows);
        Ok(Sends::NOTHING)
    }

    // A letter arrives under a sender's number.
    pub fn receive(
        &mut self,
        passed: &Passed<'_>,
        sender: u32,
        letter: Letter<'_>,
    ) -> Result<Sends, UnitFault>
        ensures { MatchResult result
            (λ sends. (letter_fault (table_of passed.now) sender letter.entry (means self.old) ≡ None)
            × (means self.new ≡ letter_done (table_of passed.now) sender letter.entry (means self.old))
            × (sends ≡ letter_sends (table_of passed.now) sender letter.entry (means self.old)))
            (λ e. (letter_fault (table_of passed.now) sender letter.entry (means self.old) ≡ Some e) × (means self.new ≡ means self.old)) }
    {
        match letter {
            Letter::Put { view, ticket } => self.on_put(passed, sender, view, ticket),
            Letter::Row { view, row } => self.on_row(passed, sender, view, row),
            Letter::Report { view, rows } => self.on_report(sender, view, rows),
        }
    }
}
