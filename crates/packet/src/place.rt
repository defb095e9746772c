// Where a row stands in bytes, and what is read there.
ghost use Rattle.std.specs.Prelude.{◌≡◌, ◌+◌, ◌^◌, ◌<◌};
ghost use Rattle.packet.specs.Said.{row_at};
ghost use Rattle.ticket.specs.Words.{word};
ghost use Rattle.ticket.specs.Writings.{writing_at};

use rows::Row;
use ticket::{Writing, word_at};

// An offset where a row stands; a put's ticket stands where a row's does. Bytes past the end count as 0.
#[derive(Clone, Copy)]
pub(crate) struct Place<'a> {
    pub(crate) bytes: &'a [u8],
    pub(crate) at: usize,
    ghost room: { at + 24 < 2 ^ 64 },
}

impl Place<'_> {
    // The row's ticket. In line, since a question looks at few of its words, and a call reads all four.
    #[inline(always)]
    pub(crate) fn ticket(&self) -> Writing
        ensures { result ≡ writing_at self.now.bytes.now self.now.at }
    {
        Writing {
            a: word_at(self.bytes, self.at),
            b: word_at(self.bytes, self.at + 4),
            c: word_at(self.bytes, self.at + 8),
            d: word_at(self.bytes, self.at + 12),
        }
    }

    // Its set.
    pub(crate) fn set(&self) -> u32
        ensures { result ≡ (row_at self.now.bytes.now self.now.at).set }
    {
        word_at(self.bytes, self.at + 16)
    }

    // The word of its mark.
    pub(crate) fn mark(&self) -> u32
        ensures { result ≡ word self.now.bytes.now (self.now.at + 20) }
    {
        word_at(self.bytes, self.at + 20)
    }

    // The row.
    pub(crate) fn row(&self) -> Row
        ensures { result ≡ row_at self.now.bytes.now self.now.at }
    {
        Row {
            ticket: self.ticket(),
            set: self.set(),
            mark: self.mark() == 1,
        }
    }
}
