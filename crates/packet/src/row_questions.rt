// The questions on tickets, sets and marks.
ghost use Rattle.std.specs.Prelude.{◌≡◌, ℕ, ◌/◌, ◌%◌, ◌^◌, ◌<◌, Decides, List, Option as Maybe};
ghost use Rattle.base.specs.Asked.{Asked};
ghost use Rattle.packet.specs.Kinds.{kind_word};
ghost use Rattle.packet.specs.declared.fault.PacketFault.{PacketFault};
ghost use Rattle.packet.specs.Questions.{listed, ticket_fault, set_fault, mark_fault, each_fault, rows_fault};

use crate::fault::PacketFault;
use crate::kind::Kind;
use crate::place::Place;
use crate::questions::Packet;
use ticket::Ticket;

// Whether a set of quorum places names none at or above so many.
#[tactic(auto, using(crate::proofs::Sets::none_above, crate::proofs::Sets::listed_bits))]
pub fn names_listed(set: u32, quorums: u32) -> bool
    ensures test { result ≡ listed quorums set }
    ensures bits { Decides result ((p : ℕ) → set / 2 ^ p % 2 ≡ 1 → p < quorums) }
{
    set.checked_shr(quorums).unwrap_or(0) == 0
}

impl Place<'_> {
    fn check_ticket<T: Ticket>(&self) -> Result<(), PacketFault>
        ensures { Asked (ticket_fault T.refuses self.now.bytes.now self.now.at) result }
    {
        let at = self.at;
        T::check(self.ticket()).map_err(|fault| PacketFault::Ticket { at, fault })
    }

    fn check_set(&self, quorums: u32) -> Result<(), PacketFault>
        ensures { Asked (set_fault quorums self.now.bytes.now self.now.at) result }
    {
        if names_listed(self.set(), quorums) {
            Ok(())
        } else {
            Err(PacketFault::Set(self.at + 16))
        }
    }

    fn check_mark(&self) -> Result<(), PacketFault>
        ensures { Asked (mark_fault self.now.bytes.now self.now.at) result }
    {
        match self.mark() {
            0 => Ok(()),
            1 if self.set() > 0 => Ok(()),
            _ => Err(PacketFault::Mark(self.at + 20)),
        }
    }
}

impl<'a> Packet<'a> {
    ghost use Rattle.packet.specs.Entries.{Puts};

    // Asks a question of each row of the packet; a put has only a ticket, at the place of a row's.
    fn each<F: Fn(Place<'a>) -> Result<(), PacketFault>>(&self, ask: F) -> Result<(), PacketFault>
        requires { F.IsAlwaysCallable ask }
        ensures { (question : List ℕ → ℕ → Maybe PacketFault) → Puts (F.post ask) question → Asked (each_fault (question self.now.bytes.now) (kind_word self.now.kind) self.now.view self.now.bytes.now) result }
    {
        if self.kind == Kind::Report {
            self.entries().each(ask)
        } else {
            ask(self.body())
        }
    }

    // The three questions, each of the whole packet before the next; a put has only a ticket.
    pub(crate) fn check_rows<T: Ticket>(&self, quorums: u32) -> Result<(), PacketFault>
        ensures { Asked (rows_fault T.refuses quorums (kind_word self.now.kind) self.now.view self.now.bytes.now) result }
    {
        self.each(|row| row.check_ticket::<T>())?;
        if self.kind == Kind::Put {
            return Ok(());
        }
        self.each(|row| row.check_set(quorums))?;
        self.each(|row| row.check_mark())
    }
}
