// Rows by view or by sender, and grids of rows by view and sender, at any number.
ghost use Rattle.std.specs.Prelude.{◌≡◌, slice_set};
ghost use Rattle.rows.specs.Rows.{row_in, cell};
ghost use Rattle.unit.specs.Rules.{with_cell};

use base::{UNIT_COUNT, VIEW_COUNT};
use rows::Row;

// The row at a number; none past the last.
pub(crate) fn row_in(rows: &[Option<Row>], i: u32) -> Option<Row>
    ensures { result ≡ row_in rows.now i }
{
    rows.get(i as usize).copied().flatten()
}

// Sets the row at a number; nothing past the last. By index, since of a write through `get_mut` the elements are not known after.
pub(crate) fn set_in(rows: &mut [Option<Row>], i: u32, said: Option<Row>)
    ensures { rows.new ≡ slice_set rows.old i said }
{
    let i = i as usize;
    if i < rows.len() {
        rows[i] = said;
    }
}

// What a sender said in view v.
pub(crate) fn cell_of(grid: &[[Option<Row>; UNIT_COUNT]; VIEW_COUNT], v: u32, x: u32) -> Option<Row>
    ensures { result ≡ cell grid.now v x }
{
    grid.get(v as usize).and_then(|rows| row_in(rows, x))
}

// Stores what a sender said in view v; nothing for a view or a number that is not there.
pub(crate) fn set_cell(
    grid: &mut [[Option<Row>; UNIT_COUNT]; VIEW_COUNT],
    v: u32,
    x: u32,
    said: Option<Row>,
)
    ensures { grid.new ≡ with_cell grid.old v x said }
{
    let v = v as usize;
    if v < grid.len() {
        set_in(&mut grid[v], x, said);
    }
}
