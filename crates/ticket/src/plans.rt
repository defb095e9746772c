// Plans as a kind of ticket.
ghost use Rattle.std.specs.Prelude.{◌≡◌, Some, None, MatchOption};
ghost use Rattle.ticket.specs.Plans.{plan_writing, plan_refuses};
ghost use Rattle.ticket.specs.ByWriting.{plans_apart, plans_whole};
ghost use Rattle.std.proofs.Common.{rules, arith};

use crate::bounds::{ends_fit, picks_fit};
use crate::fault::TicketFault;
use crate::kind::Ticket;
use crate::plan::Plan;
use crate::writing::Writing;

impl Ticket for Plan {
    ghost written = { plan_writing };

    ghost refuses = { plan_refuses };

    ghost fits = { first_of (Prim.search rules, Prim.grind (arith, Self.row.coded.inj)) };

    ghost apart = { λ s t e. plans_apart s t e };

    ghost own = { first_of (Prim.search rules, Prim.grind (arith, Self.row.coded.inj)) };

    ghost whole = { λ w f e. plans_whole w f e };

    fn writing(&self) -> Writing {
        Writing {
            a: self.pattern(),
            b: self.ends(),
            c: self.picks(),
            d: self.revision(),
        }
    }

    fn check(writing: Writing) -> Result<(), TicketFault> {
        if ends_fit(writing.b) && picks_fit(writing.c) {
            Ok(())
        } else {
            Err(TicketFault::NotOfTheKind)
        }
    }

    fn of_writing(writing: Writing) -> Result<Plan, TicketFault> {
        Plan::new(writing.a, writing.b, writing.c, writing.d).ok_or(TicketFault::NotOfTheKind)
    }
}
