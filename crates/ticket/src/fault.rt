// Why a writing is no ticket of a kind.
ghost use Rattle.std.specs.Prelude.{◌≡◌};
ghost use Rattle.ticket.specs.Faults.{ticket_says};

use base::{Fault, FaultCode, Layer};

#[derive(Clone, Copy, PartialEq, Eq, Debug)]
pub enum TicketFault {
    // no ticket of the kind is written so
    NotOfTheKind,
}

impl Fault for TicketFault {
    ghost says = { ticket_says };

    fn code(self) -> FaultCode {
        match self {
            TicketFault::NotOfTheKind => FaultCode {
                number: 45,
                layer: Layer::Packet,
                place: 0,
            },
        }
    }
}
