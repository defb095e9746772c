// The laws of reading and writing packets, each on a function's contract.
#![tactic(auto)]

ghost use Rattle.std.specs.Prelude.{◌≡◌, Some, None, MatchResult, ◌≢◌};
ghost use Rattle.base.specs.Limits.{views};
ghost use Rattle.packet.specs.Questions.{packet_fault};
ghost use Rattle.packet.specs.Said.{Said, meaning};
ghost use Rattle.packet_laws.specs.Within.{Within};
ghost use Rattle.packet_write.specs.Writes.{writing, Wrote};

use packet::{Message, PacketFault};
use packet_write::write;
use ticket::Ticket;

// Reads a packet. What a message within the bounds is written as gives that message back, and a packet is accepted
// exactly if it is what some message within the bounds is written as.
pub fn read_back<'a, T: Ticket>(bytes: &'a [u8], quorums: u32) -> Result<Message<'a>, PacketFault>
    ensures back { (m : Said) → Within views T.refuses quorums m → writing m ≡ bytes.now → MatchResult result (λ x. meaning x ≡ m) (λ _. ⊥) }
    ensures exactly { MatchResult result (λ x. Within views T.refuses quorums (meaning x) × (writing (meaning x) ≡ bytes.now)) (λ _. (m : Said) → Within views T.refuses quorums m → writing m ≢ bytes.now) }
{
    packet::read::<T>(bytes, quorums)
}

// Reads a packet and writes its message: the same bytes come back, where there is room for them.
pub fn rewrite<T: Ticket>(
    bytes: &[u8],
    quorums: u32,
    out: &mut [u8],
) -> Result<Option<usize>, PacketFault>
    ensures { MatchResult result (λ n. (packet_fault views T.refuses quorums bytes.now ≡ None) × Wrote bytes.now out.old out.new n) (λ e. (packet_fault views T.refuses quorums bytes.now ≡ Some e) × (out.new ≡ out.old)) }
{
    let message = packet::read::<T>(bytes, quorums)?;
    Ok(write(message, out))
}
