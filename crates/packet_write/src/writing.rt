// Writing a message to the front of a caller's bytes; the rest of them is kept. Where they are too few, nothing changes.
ghost use Rattle.std.specs.List.{flat_map};
ghost use Rattle.packet.specs.Said.{says_put, says_row, says_report};
ghost use Rattle.packet_write.specs.Writes.{report_bytes, writing, written, Wrote};
ghost use Rattle.ticket.specs.Words.{be};

use crate::putting::{put_entries, put_words};
use crate::sizes::room_after;
use packet::{ENTRIES_OFFSET, Kind, Message, Report};
use rows::Row;
use ticket::Writing;

// A packet of these words.
#[tactic(auto, using(crate::proofs::Over::words_length, crate::proofs::Over::over_front))]
fn write_words(words: &[u32], out: &mut [u8]) -> Option<usize>
    ensures { Wrote (flat_map be words.now) out.old out.new result }
{
    if out.len() / 4 < words.len() {
        return None;
    }
    Some(put_words(out, 0, words))
}

// A report that is borrowed from a packet: its entries' bytes are copied.
fn copy_report(report: Report<'_>, out: &mut [u8]) -> Option<usize>
    ensures { Wrote (report_bytes report.entry.view report.entry.entries.now) out.old out.new result }
{
    let view = report.view();
    let entries = report.entries();
    if out.len().checked_sub(ENTRIES_OFFSET)? < entries.len() {
        return None;
    }
    let at = put_words(out, 0, &[Kind::Report.into(), view, view]);
    let end = at + entries.len();
    out[at..end].copy_from_slice(entries);
    Some(end)
}

// A put; answers its length.
#[tactic(auto, unfolding(crate::specs::Writes::writing))]
pub fn write_put(view: u32, ticket: Writing, out: &mut [u8]) -> Option<usize>
    ensures { Wrote (writing (says_put view ticket)) out.old out.new result }
{
    let Writing { a, b, c, d } = ticket;
    write_words(&[Kind::Put.into(), view, a, b, c, d], out)
}

// A row; answers its length.
#[tactic(auto, unfolding(crate::specs::Writes::writing))]
pub fn write_row(view: u32, row: Row, out: &mut [u8]) -> Option<usize>
    ensures { Wrote (writing (says_row view row)) out.old out.new result }
{
    let Writing { a, b, c, d } = row.ticket;
    write_words(
        &[Kind::Row.into(), view, a, b, c, d, row.set, row.mark.into()],
        out,
    )
}

// A report for a view from a unit's rows of the views below it; answers its length.
#[tactic(auto, using(crate::proofs::Over::over_more, crate::proofs::Over::over_front), unfolding(crate::specs::Writes::writing))]
pub fn write_report(view: u32, rows: &[Option<Row>], out: &mut [u8]) -> Option<usize>
    ensures { Wrote (writing (says_report view rows.now)) out.old out.new result }
{
    room_after(rows, out.len().checked_sub(ENTRIES_OFFSET)?)?;
    let at = put_words(out, 0, &[Kind::Report.into(), view, view]);
    Some(put_entries(out, at, rows))
}

// A message; answers its length.
#[tactic(auto, unfolding(crate::specs::Writes::written))]
pub fn write(message: Message<'_>, out: &mut [u8]) -> Option<usize>
    ensures { Wrote (written message.entry) out.old out.new result }
{
    match message {
        Message::Put { view, ticket } => write_put(view, ticket, out),
        Message::Row { view, row } => write_row(view, row, out),
        Message::Report(report) => copy_report(report, out),
    }
}
