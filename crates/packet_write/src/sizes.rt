// How many bytes a report's entries take.
ghost use Rattle.std.specs.Prelude.{◌≡◌, ◌+◌, ◌<◌, length, MatchOption};
ghost use Rattle.packet_write.specs.Writes.{entry_bytes, entries_bytes};

use rows::Row;

fn entry_size(entry: Option<Row>) -> usize
    ensures { result ≡ length (entry_bytes entry) }
{
    entry.map_or(4, |_| 28)
}

// What is left of so many bytes after a report's entries, if they fit.
#[tactic(auto, using(crate::proofs::Over::piece_more, crate::proofs::Over::piece_fits), unfolding(crate::specs::Writes::entries_bytes))]
pub(crate) fn room_after(rows: &[Option<Row>], room: usize) -> Option<usize>
    ensures { MatchOption result (room < length (entries_bytes rows.now)) (λ left. left + length (entries_bytes rows.now) ≡ room) }
{
    let mut left = room;
    for row in rows {
        left = left.checked_sub(entry_size(*row))?;
    }
    Some(left)
}
