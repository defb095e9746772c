// The three rules by which a ticket can be announced, and by which reports back one.
ghost use Rattle.std.specs.Prelude.{◌≡◌, Decides};
ghost use Rattle.rows.specs.Rules.{Ranked, test_of};

use crate::asked::Test;
use std::fmt;

// The least rule is the strongest.
#[derive(Clone, Copy, PartialEq, Eq, Debug)]
pub enum Rule {
    // a class 1 quorum with the ticket
    First,
    // a quorum of class 1 or 2 with the ticket and its own place in each set
    Second,
    // any quorum with the ticket and the mark
    Third,
}

impl fmt::Display for Rule {
    fn fmt<W: fmt::Write>(&self, f: &mut fmt::Formatter<W>) -> fmt::Result {
        f.write_str(match self {
            Rule::First => "rule 1",
            Rule::Second => "rule 2",
            Rule::Third => "rule 3",
        })
    }
}

// Is the rule for quorums of this class?
pub fn ranked(rule: Rule, class: u8) -> bool
    ensures { Decides result (Ranked rule class) }
{
    match rule {
        Rule::First => class == 1,
        Rule::Second => class <= 2,
        Rule::Third => true,
    }
}

// What the rule asks of each row of the quorum at place p, beside the ticket.
pub fn test_of(rule: Rule, p: u32) -> Test
    ensures { result ≡ test_of rule p }
{
    match rule {
        Rule::First => Test::Ticket,
        Rule::Second => Test::Place(p),
        Rule::Third => Test::Marked,
    }
}
