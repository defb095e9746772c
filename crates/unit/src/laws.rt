// Laws of the rules, each the contract of a function.
ghost use Rattle.unit.specs.Laws.{LeftRowsStay, RowsOnlyGrow};

// A row in a view that was left never changes.
pub fn left_rows_stay()
    ensures { LeftRowsStay }
{}

// In a unit's life rows only grow.
pub fn rows_only_grow()
    ensures { RowsOnlyGrow }
{}
