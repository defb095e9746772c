// Reading a packet.
ghost use Rattle.std.specs.Prelude.{◌≡◌, Some, None, MatchResult};
ghost use Rattle.base.specs.Limits.{views};
ghost use Rattle.packet.specs.Questions.{packet_fault};
ghost use Rattle.packet.specs.Said.{meaning, said_by, Borrows};

use crate::fault::PacketFault;
use crate::kind::Kind;
use crate::message::{Message, Report};
use crate::questions::Packet;
use ticket::Ticket;

impl<'a> Packet<'a> {
    // What the packet says.
    #[tactic(auto, unfolding(crate::specs::Said::said_by))]
    fn message(&self) -> Message<'a>
        ensures { (meaning result ≡ said_by self.now.bytes.now) × Borrows self.now.bytes.now result }
    {
        match self.kind {
            Kind::Put => Message::Put {
                view: self.view,
                ticket: self.body().ticket(),
            },
            Kind::Row => Message::Row {
                view: self.view,
                row: self.body().row(),
            },
            Kind::Report => Message::Report(Report::in_packet(self.view, self.bytes)),
        }
    }
}

// What a packet says, where tickets are of kind T and so many quorums are listed.
#[tactic(auto, unfolding(crate::specs::Questions::packet_fault))]
pub fn read<'a, T: Ticket>(bytes: &'a [u8], quorums: u32) -> Result<Message<'a>, PacketFault>
    ensures { MatchResult result (λ m. (packet_fault views T.refuses quorums bytes.now ≡ None) × (meaning m ≡ said_by bytes.now) × Borrows bytes.now m) (λ e. packet_fault views T.refuses quorums bytes.now ≡ Some e) }
{
    let packet = Packet::open(bytes)?;
    packet.check_count()?;
    packet.check_shape()?;
    packet.check_rows::<T>(quorums)?;
    Ok(packet.message())
}
