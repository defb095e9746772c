// Runs of a shed's calls, and the agreement that holds after any of them.
#![tactic(auto)]

ghost use Rattle.calls.specs.Calls.{ways};
ghost use Rattle.history.specs.Promised.{CallsAgree};

use ticket::Ticket;
use wire::Wire;

// For every kind of ticket and every wire: what is promised holds after any calls.
pub fn calls_agree<T: Ticket, W: Wire>(_wire: &W)
    ensures { CallsAgree (ways T.written T.refuses W.rule) }
{}
