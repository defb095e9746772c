// Which units said a row of some kind, as a mask.
ghost use Rattle.std.specs.Prelude.{◌≡◌, ◌<◌, Decides};
ghost use Rattle.sets.specs.Sets.{Is};
ghost use Rattle.rows.specs.Rows.{row_in, Holds, Wanted};

use crate::asked::Test;
use crate::row::Row;
use base::UNIT_COUNT;
use ticket::Writing;

// The units whose row, listed by their number, answers the question with yes.
pub fn senders(rows: &[Option<Row>; UNIT_COUNT], test: Test, ticket: Writing) -> u16
    ensures { Is result (λ x. Holds (row_in rows.now x) (Wanted test ticket)) }
{
    let mut mask = 0;
    for (x, said) in rows.iter().enumerate() {
        if says(*said, test, ticket) {
            mask = sets::with(mask, x as u32);
        }
    }
    mask
}

fn says(said: Option<Row>, test: Test, ticket: Writing) -> bool
    ensures { Decides result (Holds said (Wanted test ticket)) }
{
    said.is_some_and(|row| test.wanted(ticket, row))
}
