// The entries of a report, one by one.
ghost use Rattle.std.specs.Prelude.{ℕ, ◌+◌, ◌*◌, ◌^◌, ◌<◌, List, Option as Maybe};

use crate::fault::PacketFault;
use crate::place::Place;
use ticket::word_at;

// The entries that are left, from an offset on.
#[derive(Drop)]
pub(crate) struct Entries<'a> {
    pub(crate) bytes: &'a [u8],
    pub(crate) at: usize,
    pub(crate) left: u32,
    ghost room: { at + 28 * left < 2 ^ 64 },
}

impl<'a> Iterator for Entries<'a> {
    ghost use Rattle.std.specs.Iterator.{at_most};
    ghost use Rattle.packet.specs.Entries.{NextEntry};

    // where the entry's row stands, if it has one
    type Item = Option<Place<'a>>;

    ghost next_gives = { NextEntry };

    ghost remaining = { λ s. at_most s.left };

    fn next(&mut self) -> Option<Option<Place<'a>>> {
        self.left = self.left.checked_sub(1)?;
        let entry = self.at;
        if word_at(self.bytes, entry) == 1 && self.bytes.len() >= entry + 28 {
            self.at = entry + 28;
            Some(Some(Place {
                bytes: self.bytes,
                at: entry + 4,
            }))
        } else {
            self.at = entry + 4;
            Some(None)
        }
    }
}

impl<'a> Entries<'a> {
    ghost use Rattle.base.specs.Asked.{Asked};
    ghost use Rattle.packet.specs.Entries.{Puts};
    ghost use Rattle.packet.specs.Questions.{entries_fault};
    ghost use Rattle.packet.specs.declared.fault.PacketFault.{PacketFault};

    // Asks a question of the row of each entry that has one.
    pub(crate) fn each<F: Fn(Place<'a>) -> Result<(), PacketFault>>(
        self,
        ask: F,
    ) -> Result<(), PacketFault>
        requires { F.IsAlwaysCallable ask }
        ensures { (question : List ℕ → ℕ → Maybe PacketFault) → Puts (F.post ask) question → Asked (entries_fault (question self.entry.bytes.now) self.entry.bytes.now self.entry.left self.entry.at) result }
    {
        for entry in self {
            if let Some(row) = entry {
                ask(row)?;
            }
        }
        Ok(())
    }
}
