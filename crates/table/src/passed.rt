// A table that has passed: the caller's lists, which stay lent as long as it is held.
ghost use Rattle.std.specs.Prelude.{◌≡◌};

use crate::table::Table;
use std::marker::Model;

// It is seen as what the table means, and its properties are its invariant: only the check makes one.
#[derive(Drop)]
pub struct Passed<'a> {
    pub(crate) table: Table<'a>,
}

impl<'a> Model for Passed<'a> {
    ghost use Rattle.table.specs.Tables.{QuorumTable, Proper};

    ghost Value = { QuorumTable };

    ghost use Rattle.table.specs.Listed.{listed};

    ghost view = { λ p. listed p.table };

    ghost invariant = { λ p. ∥ Proper (listed p.table) ∥₁ };
}

impl<'a> Passed<'a> {
    ghost use Rattle.table.specs.Tables.{Proper};
    ghost use Rattle.table.specs.Means.{listed, means};

    // The caller's table again. It is proper.
    pub fn table(&self) -> Table<'a>
        ensures is { listed result ≡ means self.now }
        ensures proper { ∥ Proper (means self.now) ∥₁ }
    {
        self.table
    }
}
