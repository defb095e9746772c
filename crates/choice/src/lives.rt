// What a quorum reports of a view, and whether a ticket is live by it, by masks.
ghost use Rattle.std.specs.Prelude.{◌≡◌, ◌<◌, ◌≤◌, [], slice_index_or, Decides};
ghost use Rattle.base.specs.Limits.{views};
ghost use Rattle.sets.specs.Sets.{Has, Is, Basic};
ghost use Rattle.table.specs.Tables.{In, quorum_at};
ghost use Rattle.table.specs.Means.{means};
ghost use Rattle.rows.specs.Rules.{Needed};
ghost use Rattle.choice.specs.Reports.{AllBut, BackedBy, Backed, Later, Barred, LiveIn};

use base::{UNIT_COUNT, VIEW_COUNT};
use rows::{Row, Rule, Test, ranked, senders, test_of};
use table::Passed;
use ticket::Writing;

// What the units of the quorum at a place report of an earlier view, for a view that chooses.
// The rows of all reports come by view and sender.
#[derive(Clone, Copy)]
pub(crate) struct Reports<'a> {
    pub(crate) passed: &'a Passed<'a>,
    pub(crate) quorum: u32,
    pub(crate) grid: &'a [[Option<Row>; UNIT_COUNT]; VIEW_COUNT],
    pub(crate) earlier: usize,
    pub(crate) view: usize,
    ghost before: { earlier < view },
    ghost within: { view ≤ views },
}

impl Reports<'_> {
    // The rows of the earlier view, by sender.
    pub(crate) fn rows(&self) -> &[Option<Row>; UNIT_COUNT]
        ensures { result.now ≡ slice_index_or self.now.grid.now self.now.earlier [] }
    {
        &self.grid[self.earlier]
    }

    // The quorum's units.
    pub(crate) fn units(&self) -> u16
        ensures { result ≡ (quorum_at (means self.now.passed.now) self.now.quorum).set }
    {
        self.passed.units_of(self.quorum)
    }

    // Outside some listed fault set, do all units of this quorum and the one at place p report the ticket as the rule asks?
    // What of the two quorums does not report so must be bearable.
    fn all_but(&self, rule: Rule, p: u32, ticket: Writing) -> bool
        ensures { Decides result (AllBut (means self.now.passed.now) self.now.quorum self.now.grid.now p self.now.earlier (Needed rule p ticket)) }
    {
        let both = sets::shared(self.passed.units_of(p), self.units());
        let so = senders(self.rows(), test_of(rule, p), ticket);
        self.passed.bearable(sets::without(both, so))
    }

    fn backed_by(&self, rule: Rule, ticket: Writing) -> bool
        ensures { Decides result (BackedBy (means self.now.passed.now) self.now.quorum self.now.grid.now rule self.now.earlier ticket) }
    {
        self.passed.quorums().iter().enumerate().any(|(p, quorum)| {
            ranked(rule, quorum.class) && self.all_but(rule, p as u32, ticket)
        })
    }

    fn backed(&self, ticket: Writing) -> bool
        ensures { Decides result (Backed (means self.now.passed.now) self.now.quorum self.now.grid.now self.now.earlier ticket) }
    {
        [Rule::First, Rule::Second, Rule::Third]
            .iter()
            .any(|rule| self.backed_by(*rule, ticket))
    }

    // The units that report another ticket in a view after the earlier one and below the one that chooses.
    fn later(&self, ticket: Writing) -> u16
        ensures { Is result (Later self.now.grid.now self.now.view self.now.earlier ticket) }
    {
        let grid = self.grid;
        let mut mask: u16 = 0;
        for rows in &grid[self.earlier + 1..self.view] {
            mask = sets::joined(mask, senders(rows, Test::Other, ticket));
        }
        mask
    }

    // Is the part of the quorum that is in the set basic?
    fn basic_part(&self, set: u16) -> bool
        ensures { Decides result (Basic (means self.now.passed.now).faults (λ x. In (means self.now.passed.now) self.now.quorum x × Has set x)) }
    {
        self.passed.basic(sets::shared(self.units(), set))
    }

    fn barred(&self, ticket: Writing) -> bool
        ensures { Decides result (Barred (means self.now.passed.now) self.now.quorum self.now.grid.now self.now.view self.now.earlier ticket) }
    {
        let rivals = senders(self.rows(), Test::OtherFilled, ticket);
        self.basic_part(rivals) || self.basic_part(self.later(ticket))
    }

    // Is the ticket live by its rows in the earlier view?
    pub(crate) fn live(&self, ticket: Writing) -> bool
        ensures { Decides result (LiveIn (means self.now.passed.now) self.now.quorum self.now.grid.now self.now.view self.now.earlier ticket) }
    {
        self.backed(ticket) && !self.barred(ticket)
    }
}
