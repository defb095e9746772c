// The choice, ticket by ticket.
ghost use Rattle.std.specs.Prelude.{◌≡◌, ◌+◌, Decides};
ghost use Rattle.table.specs.Means.{means};
ghost use Rattle.choice.specs.Reports.{LiveIn};
ghost use Rattle.choice.specs.Chosen.{Chosen, choice_of};
ghost use Rattle.choice.specs.Steps.{Settled, joined_with, WithTicket, Seen};

use crate::choice::Choice;
use crate::lives::Reports;
use base::{UNIT_COUNT, VIEW_COUNT};
use rows::Row;
use table::Passed;
use ticket::Writing;

impl Choice<Writing> {
    // Does one more ticket change nothing?
    fn settled(self, ticket: Writing) -> bool
        ensures { Decides result (Settled self ticket) }
    {
        match self {
            Choice::Free => false,
            Choice::Only(held) => held == ticket,
            Choice::Torn => true,
        }
    }

    fn joined(self, ticket: Writing) -> Choice<Writing>
        ensures { result ≡ joined_with self ticket }
    {
        match self {
            Choice::Free => Choice::Only(ticket),
            Choice::Only(_) | Choice::Torn => Choice::Torn,
        }
    }
}

impl Reports<'_> {
    // The choice with a ticket of the earlier view. What is settled is not asked again.
    fn with_ticket(&self, ticket: Writing, choice: Choice<Writing>) -> Choice<Writing>
        ensures { WithTicket (LiveIn (means self.now.passed.now) self.now.quorum self.now.grid.now self.now.view self.now.earlier ticket) choice ticket result }
    {
        if !choice.settled(ticket) && self.live(ticket) {
            choice.joined(ticket)
        } else {
            choice
        }
    }

    // The choice with what the quorum's units report of the earlier view.
    fn with_view(&self, before: Choice<Writing>) -> Choice<Writing>
        requires { Chosen (Seen (means self.now.passed.now) self.now.quorum self.now.grid.now self.now.view self.now.earlier 0) before }
        ensures { Chosen (Seen (means self.now.passed.now) self.now.quorum self.now.grid.now self.now.view (self.now.earlier + 1) 0) result }
    {
        let units = self.units();
        let mut choice = before;
        for (x, said) in self.rows().iter().enumerate() {
            // two conditions: tried as one, and a proof then knows nothing of a unit that reports no row
            if sets::has(units, x as u32) {
                if let Some(row) = said {
                    choice = self.with_ticket(row.ticket, choice);
                }
            }
        }
        choice
    }
}

// What the reports of the quorum at place q let view w choose; the reports' rows come by view and sender.
pub fn choose(
    passed: &Passed<'_>,
    q: u32,
    grid: &[[Option<Row>; UNIT_COUNT]; VIEW_COUNT],
    w: u32,
) -> Choice<Writing>
    ensures { result ≡ choice_of (means passed.now) q grid.now w }
{
    let view = (w as usize).min(VIEW_COUNT);
    let mut choice = Choice::Free;
    // by its number, since the rows of the views after it are asked too
    for earlier in 0..view {
        let reports = Reports {
            // lent again at each turn, since its own lifetime is not the grid's
            passed: &*passed,
            quorum: q,
            grid,
            earlier,
            view,
        };
        choice = reports.with_view(choice);
    }
    choice
}
