// What a unit's kept reports let it put or take.
ghost use Rattle.std.specs.Prelude.{◌≡◌, ℕ, ◌<◌, Decides};
ghost use Rattle.table.specs.Tables.{IsQuorum};
ghost use Rattle.table.specs.Means.{means as table_of};
ghost use Rattle.unit.specs.States.{means};
ghost use Rattle.unit.specs.Reported.{Allows, Torn?, FullyReported, choice_at, SomeAllows, deciding};

use crate::state::ControlUnit;
use choice::{Choice, choose};
use table::Passed;
use ticket::Writing;

// Does the choice let the ticket be put?
fn allows(choice: Choice<Writing>, ticket: Writing) -> bool
    ensures { Decides result (Allows choice ticket) }
{
    match choice {
        Choice::Free => true,
        Choice::Only(held) => held == ticket,
        Choice::Torn => false,
    }
}

impl ControlUnit {
    // Is a report of each unit of the quorum at place q kept?
    pub(crate) fn fully(&self, passed: &Passed<'_>, q: u32) -> bool
        ensures { Decides result (FullyReported (table_of passed.now) (means self.now) q) }
    {
        sets::inside(passed.units_of(q), self.reported)
    }

    // The choice from the reports of the quorum.
    pub(crate) fn choice_of(&self, passed: &Passed<'_>, q: u32) -> Choice<Writing>
        ensures { result ≡ choice_at (table_of passed.now) (means self.now) q }
    {
        choose(passed, q, &self.reports, self.view)
    }

    // Does some fully reported quorum give free or only this ticket?
    pub(crate) fn some_allows(&self, passed: &Passed<'_>, ticket: Writing) -> bool
        ensures { Decides result (SomeAllows (table_of passed.now) (means self.now) ticket) }
    {
        (0..passed.quorum_count()).any(|q| self.fully(passed, q)
            && allows(self.choice_of(passed, q), ticket))
    }

    // Is some quorum fully reported?
    pub(crate) fn some_fully(&self, passed: &Passed<'_>) -> bool
        ensures { Decides result ((q : ℕ) × IsQuorum (table_of passed.now) q × FullyReported (table_of passed.now) (means self.now) q) }
    {
        (0..passed.quorum_count()).any(|q| self.fully(passed, q))
    }

    // The first listed quorum that is fully reported and whose choice is not torn.
    pub(crate) fn first_deciding(&self, passed: &Passed<'_>) -> Option<u32>
        ensures { result ≡ deciding (table_of passed.now) (means self.now) }
    {
        (0..passed.quorum_count()).find(|q| self.fully(passed, *q)
            && self.choice_of(passed, *q) != Choice::Torn)
    }
}
