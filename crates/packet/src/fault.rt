// Why bytes are no packet.
ghost use Rattle.packet.specs.Faults.{packet_says};

use base::{Fault, FaultCode, Layer};
use ticket::TicketFault;

#[derive(Clone, Copy, PartialEq, Eq, Debug)]
pub enum PacketFault {
    // no packet has this length
    Length(usize),
    // the first word is no kind of packet
    Kind,
    // the second word is no view, or not one that is reported for
    View,
    // a report has no count, or another than its view
    Count,
    // an offset: a wrong presence word, the length where the packet ends too soon, or where it should have ended
    Shape(usize),
    // the ticket at an offset is not of the kind in use
    Ticket { at: usize, fault: TicketFault },
    // the set at an offset names a quorum that is not listed
    Set(usize),
    // the mark at an offset is neither 0 nor 1, or 1 with an empty set
    Mark(usize),
}

impl Fault for PacketFault {
    ghost says = { packet_says };

    fn code(self) -> FaultCode {
        match self {
            PacketFault::Length(length) => Layer::Packet.refusal(40, length),
            PacketFault::Kind => Layer::Packet.refusal(41, 0),
            PacketFault::View => Layer::Packet.refusal(42, 4),
            PacketFault::Count => Layer::Packet.refusal(43, 8),
            PacketFault::Shape(place) => Layer::Packet.refusal(44, place),
            PacketFault::Ticket { at, fault } => Layer::Packet.refusal(fault.code().number, at),
            PacketFault::Set(at) => Layer::Packet.refusal(46, at),
            PacketFault::Mark(at) => Layer::Packet.refusal(47, at),
        }
    }
}
