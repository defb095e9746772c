// Words and entries put into a caller's bytes.
ghost use Rattle.std.specs.Prelude.{◌≡◌, ◌+◌, ◌≤◌, length};
ghost use Rattle.std.specs.List.{flat_map};
ghost use Rattle.packet_write.specs.Writes.{entry_bytes, entries_bytes, over};
ghost use Rattle.ticket.specs.Words.{be};

use rows::Row;
use ticket::Writing;

// Words, high byte first, from an offset on; answers where they end.
#[tactic(auto, using(crate::proofs::Over::piece_fits, crate::proofs::Over::piece_more, crate::proofs::Over::piece_over, crate::proofs::Over::over_mid))]
pub(crate) fn put_words(out: &mut [u8], at: usize, words: &[u32]) -> usize
    requires { at + length (flat_map be words.now) ≤ length out.old }
    ensures end { result ≡ at + length (flat_map be words.now) }
    ensures bytes { out.new ≡ over out.old at (flat_map be words.now) }
{
    let mut end = at;
    for word in words {
        out[end..end + 4].copy_from_slice(&word.to_be_bytes());
        end += 4;
    }
    end
}

// An entry: a presence word and, after 1, a row; answers where it ends.
pub(crate) fn put_entry(out: &mut [u8], at: usize, entry: Option<Row>) -> usize
    requires { at + length (entry_bytes entry) ≤ length out.old }
    ensures end { result ≡ at + length (entry_bytes entry) }
    ensures bytes { out.new ≡ over out.old at (entry_bytes entry) }
{
    match entry {
        None => put_words(out, at, &[0]),
        Some(
            Row {
                ticket: Writing { a, b, c, d },
                set,
                mark,
            },
        ) => put_words(out, at, &[1, a, b, c, d, set, u32::from(mark)]),
    }
}

// A report's entries, from an offset on; answers where they end.
#[tactic(auto, using(crate::proofs::Over::piece_fits, crate::proofs::Over::piece_more, crate::proofs::Over::piece_over), unfolding(crate::specs::Writes::entries_bytes))]
pub(crate) fn put_entries(out: &mut [u8], at: usize, rows: &[Option<Row>]) -> usize
    requires { at + length (entries_bytes rows.now) ≤ length out.old }
    ensures end { result ≡ at + length (entries_bytes rows.now) }
    ensures bytes { out.new ≡ over out.old at (entries_bytes rows.now) }
{
    let mut end = at;
    for row in rows {
        end = put_entry(out, end, *row);
    }
    end
}
