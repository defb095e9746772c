// What a packet says.
ghost use Rattle.std.specs.Prelude.{◌≡◌, drop};
ghost use Rattle.packet.specs.Said.{entries_offset};

use rows::Row;
use ticket::Writing;

// A report for a view: the entries' part of the packet, and its offset there (of a report that was read it is 12).
#[derive(Clone, Copy, Debug)]
pub struct Report<'a> {
    view: u32,
    offset: usize,
    entries: &'a [u8],
}

// The bytes before a report's entries: kind, view and count.
pub const ENTRIES_OFFSET: usize = 12;

impl<'a> Report<'a> {
    // A report for a view in a packet's bytes.
    pub(crate) fn in_packet(view: u32, bytes: &'a [u8]) -> Report<'a>
        ensures { (result.view ≡ view) × (result.offset ≡ entries_offset) × (result.entries.now ≡ drop entries_offset bytes.now) }
    {
        Report {
            view,
            offset: ENTRIES_OFFSET,
            entries: bytes.get(ENTRIES_OFFSET..).unwrap_or(&[]),
        }
    }

    // The view that is reported for.
    pub fn view(&self) -> u32
        ensures { result ≡ self.now.view }
    {
        self.view
    }

    // Where the entries begin in the packet.
    pub fn offset(&self) -> usize
        ensures { result ≡ self.now.offset }
    {
        self.offset
    }

    // The entries' part of the packet.
    pub fn entries(&self) -> &'a [u8]
        ensures { result.now ≡ self.now.entries.now }
    {
        self.entries
    }
}

// A packet, read.
#[derive(Clone, Copy, Debug)]
pub enum Message<'a> {
    // the leader's ticket for a view
    Put { view: u32, ticket: Writing },
    // the sender's row of a view
    Row { view: u32, row: Row },
    // the sender's rows of the views below one
    Report(Report<'a>),
}
