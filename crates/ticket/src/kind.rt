// What a kind of ticket means.
ghost use Rattle.std.specs.Prelude.{◌≡◌, ℕ, ◌^◌, ◌<◌, Some, None, Option as Maybe, MatchResult};
ghost use Rattle.base.specs.Asked.{Asked};
ghost use Rattle.ticket.specs.Writings.{Words, bytes_of};
ghost use Rattle.ticket.specs.declared.fault.TicketFault.{TicketFault};
ghost use Rattle.ticket.specs.declared.writing.Writing.{Writing};

use crate::fault::TicketFault;
use crate::writing::Writing;

// A kind's tickets are values, each known by its writing. `refuses` says of every writing whether it is a ticket's.
pub trait Ticket: Sized {
    ghost written: { Self → Writing };

    ghost refuses: { Writing → Maybe TicketFault };

    // The ticket's writing.
    fn writing(&self) -> Writing
        ensures { result ≡ written self.now };

    // Whether a writing is a ticket's, and if not, why.
    fn check(writing: Writing) -> Result<(), TicketFault>
        ensures { Asked (refuses writing) result };

    // The ticket of a writing.
    fn of_writing(writing: Writing) -> Result<Self, TicketFault>
        ensures { MatchResult result (λ t. (refuses writing ≡ None) × (written t ≡ writing)) (λ e. refuses writing ≡ Some e) };

    // each word of a ticket's writing fits its four bytes
    ghost fits: { (t : Self) → Words (written t) };

    // no two tickets share their sixteen bytes
    ghost apart: { (s t : Self) → bytes_of (written s) ≡ bytes_of (written t) → s ≡ t };

    // a ticket's writing is not refused
    ghost own: { (t : Self) → refuses (written t) ≡ None };

    // what is not refused is some ticket's writing
    ghost whole: { (w : Writing) → Words w → refuses w ≡ None → (t : Self) × (written t ≡ w) };
}
