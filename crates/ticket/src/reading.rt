// Any kind of ticket in sixteen bytes.
ghost use Rattle.std.specs.Prelude.{◌≡◌, Some, None, Ok, MatchResult, ◌≢◌};
ghost use Rattle.ticket.specs.Writings.{bytes_of, writing_of};

use crate::bytes::{bytes_of, writing_of};
use crate::fault::TicketFault;
use crate::kind::Ticket;

// The sixteen bytes of a ticket.
pub fn write<T: Ticket>(ticket: &T) -> [u8; 16]
    ensures { result ≡ bytes_of (T.written ticket.now) }
{
    bytes_of(ticket.writing())
}

// The ticket of the writing that sixteen bytes are.
fn read_writing<T: Ticket>(bytes: &[u8; 16]) -> Result<T, TicketFault>
    ensures { MatchResult result (λ t. (T.refuses (writing_of bytes.now) ≡ None) × (T.written t ≡ writing_of bytes.now)) (λ e. T.refuses (writing_of bytes.now) ≡ Some e) }
{
    T::of_writing(writing_of(bytes))
}

// The ticket that sixteen bytes are the writing of; refused exactly if no ticket of the kind is written so.
pub fn read<T: Ticket>(bytes: &[u8; 16]) -> Result<T, TicketFault>
    ensures { MatchResult result (λ t. (T.refuses (writing_of bytes.now) ≡ None) × (bytes_of (T.written t) ≡ bytes.now)) (λ e. (T.refuses (writing_of bytes.now) ≡ Some e) × ((t : T) → bytes_of (T.written t) ≢ bytes.now)) }
{
    read_writing(bytes)
}

// Reading what was written gives the ticket back.
pub fn ticket_back<T: Ticket>(ticket: &T) -> Result<T, TicketFault>
    ensures { result ≡ Ok ticket.now }
{
    let bytes = write(ticket);
    read(&bytes)
}
