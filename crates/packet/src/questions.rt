// The questions asked of a packet, in order, up to its shape.
ghost use Rattle.std.specs.Prelude.{◌≡◌, None, Some, MatchResult};
ghost use Rattle.base.specs.Asked.{Asked};
ghost use Rattle.base.specs.Limits.{views};
ghost use Rattle.packet.specs.Kinds.{kind_word};
ghost use Rattle.packet.specs.Questions.{length_fault, view_fault, head_fault, count_fault, ends_at, entry_shape, entries_shape, shape_fault};
ghost use Rattle.packet.specs.Said.{kind_of, view_of, next, entries_offset};

use crate::entries::Entries;
use crate::fault::PacketFault;
use crate::kind::Kind;
use crate::message::ENTRIES_OFFSET;
use crate::place::Place;
use base::{PACKET_BYTES, VIEWS};
use ticket::word_at;

fn check_length(length: usize) -> Result<(), PacketFault>
    ensures { Asked (length_fault views length) result }
{
    if (8..=PACKET_BYTES).contains(&length) && length % 4 == 0 {
        Ok(())
    } else {
        Err(PacketFault::Length(length))
    }
}

// A report is for a view above 0.
fn check_view(kind: Kind, view: u32) -> Result<(), PacketFault>
    ensures { Asked (view_fault views (kind_word kind) view) result }
{
    let least = u32::from(kind == Kind::Report);
    if (least..VIEWS).contains(&view) {
        Ok(())
    } else {
        Err(PacketFault::View)
    }
}

// A packet whose kind and view are known.
#[derive(Clone, Copy)]
pub(crate) struct Packet<'a> {
    pub(crate) kind: Kind,
    pub(crate) view: u32,
    pub(crate) bytes: &'a [u8],
    ghost of_kind: { kind_word kind ≡ kind_of bytes.now },
    ghost for_view: { view ≡ view_of bytes.now },
}

impl<'a> Packet<'a> {
    // The packet, where length, kind and view are right.
    pub(crate) fn open(bytes: &'a [u8]) -> Result<Packet<'a>, PacketFault>
        ensures { MatchResult result (λ p. (head_fault views bytes.now ≡ None) × (p.bytes.now ≡ bytes.now)) (λ e. head_fault views bytes.now ≡ Some e) }
    {
        check_length(bytes.len())?;
        let kind = Kind::try_from(word_at(bytes, 0))?;
        let view = word_at(bytes, 4);
        check_view(kind, view)?;
        Ok(Packet { kind, view, bytes })
    }

    // What follows kind and view: a row, or a put's ticket.
    pub(crate) fn body(&self) -> Place<'a>
        ensures { (result.bytes.now ≡ self.now.bytes.now) × (result.at ≡ 8) }
    {
        Place {
            bytes: self.bytes,
            at: 8,
        }
    }

    // A report's entries, from the first on.
    pub(crate) fn entries(&self) -> Entries<'a>
        ensures { (result.bytes.now ≡ self.now.bytes.now) × (result.at ≡ entries_offset) × (result.left ≡ self.now.view) }
    {
        Entries {
            bytes: self.bytes,
            at: ENTRIES_OFFSET,
            left: self.view,
        }
    }

    // A report's count is its view.
    pub(crate) fn check_count(&self) -> Result<(), PacketFault>
        ensures { Asked (count_fault (kind_word self.now.kind) self.now.view self.now.bytes.now) result }
    {
        if self.kind != Kind::Report
            || self.bytes.len() >= ENTRIES_OFFSET && word_at(self.bytes, 8) == self.view
        {
            Ok(())
        } else {
            Err(PacketFault::Count)
        }
    }

    // The packet ends at an offset, neither before nor after it.
    fn check_end(&self, at: usize) -> Result<(), PacketFault>
        ensures { Asked (ends_at self.now.bytes.now at) result }
    {
        let length = self.bytes.len();
        if length == at {
            Ok(())
        } else {
            Err(PacketFault::Shape(length.min(at)))
        }
    }

    // Where the entry at an offset ends: after a presence word of 0, or after the row that a 1 promises.
    fn entry_end(&self, at: usize) -> Result<usize, PacketFault>
        ensures { MatchResult result (λ end. (entry_shape self.now.bytes.now at ≡ None) × (end ≡ next self.now.bytes.now at)) (λ e. entry_shape self.now.bytes.now at ≡ Some e) }
    {
        let length = self.bytes.len();
        let left = length.saturating_sub(at);
        match word_at(self.bytes, at) {
            0 if left >= 4 => Ok(at + 4),
            1 if left >= 28 => Ok(at + 28),
            word if left >= 4 && word > 1 => Err(PacketFault::Shape(at)),
            _ => Err(PacketFault::Shape(length)),
        }
    }

    // A report's entries, and then the packet's end.
    #[tactic(auto, using(crate::proofs::Walks::shape_more, crate::proofs::Walks::shape_end))]
    fn check_entries(&self) -> Result<(), PacketFault>
        ensures { Asked (entries_shape self.now.bytes.now self.now.view entries_offset) result }
    {
        let mut at = ENTRIES_OFFSET;
        for _ in 0..self.view {
            at = self.entry_end(at)?;
        }
        self.check_end(at)
    }

    pub(crate) fn check_shape(&self) -> Result<(), PacketFault>
        ensures { Asked (shape_fault (kind_word self.now.kind) self.now.view self.now.bytes.now) result }
    {
        match self.kind {
            Kind::Put => self.check_end(24),
            Kind::Row => self.check_end(32),
            Kind::Report => self.check_entries(),
        }
    }
}
