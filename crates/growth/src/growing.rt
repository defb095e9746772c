// How a row grows by what was heard, and what may be announced, by masks.
ghost use Rattle.std.specs.Prelude.{◌≡◌, Decides};
ghost use Rattle.table.specs.Means.{means};
ghost use Rattle.sets.specs.Sets.{Has, Inside};
ghost use Rattle.rows.specs.Rows.{row_in, Holds};
ghost use Rattle.rows.specs.Rules.{Ranked, Needed};
ghost use Rattle.growth.specs.Growth.{grown_set, Spread, grown, Met, least_rule};

use base::UNIT_COUNT;
use rows::{Row, Rule, Test, ranked, senders, test_of};
use table::{Passed, Quorum};
use ticket::Writing;

// What was heard of each sender in a view, and the ticket of which it is asked.
#[derive(Clone, Copy)]
struct Heard<'a> {
    passed: &'a Passed<'a>,
    rows: &'a [Option<Row>; UNIT_COUNT],
    ticket: Writing,
}

impl Heard<'_> {
    // The places of the quorums that were heard entire with the ticket.
    fn grown_set(&self) -> u32
        ensures { result ≡ grown_set (means self.now.passed.now) (row_in self.now.rows.now) self.now.ticket }
    {
        let holders = senders(self.rows, Test::Ticket, self.ticket);
        let mut set: u32 = 0;
        for (p, quorum) in self.passed.quorums().iter().enumerate() {
            if sets::inside(quorum.set, holders) {
                set |= 1 << p;
            }
        }
        set
    }

    // Was some quorum heard entire with the ticket and sets that are not empty?
    fn spread(&self) -> bool
        ensures { Decides result (Spread (means self.now.passed.now) (row_in self.now.rows.now) self.now.ticket) }
    {
        let filled = senders(self.rows, Test::Filled, self.ticket);
        self.passed
            .quorums()
            .iter()
            .any(|quorum| sets::inside(quorum.set, filled))
    }

    // Was the quorum heard entire as the rule asks at its place?
    fn entire(&self, rule: Rule, p: u32, quorum: Quorum) -> bool
        ensures { Decides result (Inside (Has quorum.set) (λ x. Holds (row_in self.now.rows.now x) (Needed rule p self.now.ticket))) }
    {
        let so = senders(self.rows, test_of(rule, p), self.ticket);
        sets::inside(quorum.set, so)
    }

    // Does the quorum meet the rule at its place? The class is asked first: the rows are walked only where the rule is for it.
    fn meets(&self, rule: Rule, p: u32, quorum: Quorum) -> bool
        ensures { Decides result (Ranked rule quorum.class × Inside (Has quorum.set) (λ x. Holds (row_in self.now.rows.now x) (Needed rule p self.now.ticket))) }
    {
        ranked(rule, quorum.class) && self.entire(rule, p, quorum)
    }

    // Does some quorum meet the rule?
    fn met(&self, rule: Rule) -> bool
        ensures { Decides result (Met (means self.now.passed.now) (row_in self.now.rows.now) rule self.now.ticket) }
    {
        self.passed
            .quorums()
            .iter()
            .enumerate()
            .any(|(p, quorum)| self.meets(rule, p as u32, *quorum))
    }
}

// The row grows by what was heard of each sender in its view: one row changes, in place.
pub fn grow(passed: &Passed<'_>, heard: &[Option<Row>; UNIT_COUNT], row: &mut Row)
    ensures { row.new ≡ grown (means passed.now) (row_in heard.now) row.old }
{
    let heard = Heard {
        passed,
        rows: heard,
        ticket: row.ticket,
    };
    row.set = heard.grown_set();
    row.mark |= row.set != 0 && heard.spread();
}

// The least rule that is met for the ticket by what was heard of each sender in a view, if any.
pub fn least_rule(
    passed: &Passed<'_>,
    heard: &[Option<Row>; UNIT_COUNT],
    ticket: Writing,
) -> Option<Rule>
    ensures { result ≡ least_rule (means passed.now) (row_in heard.now) ticket }
{
    let heard = Heard {
        passed,
        rows: heard,
        ticket,
    };
    [Rule::First, Rule::Second, Rule::Third]
        .iter()
        .copied()
        .find(|rule| heard.met(*rule))
}
