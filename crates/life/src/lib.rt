// The life of one unit, whatever arrives: laws over the rules of crate unit.
#![tactic(auto)]

ghost use Rattle.life.specs.Laws.{OtherRowsStay, LettersKeepTheView, LivesAreFounded, RowsOnlyGrow};

// A row in a view that was left never changes: no act touches another view's row, and only raising moves the view.
pub fn left_rows_stay()
    ensures rows { OtherRowsStay }
    ensures view { LettersKeepTheView }
{}

// What a unit names, marks and announces rests on what it heard.
pub fn lives_are_founded()
    ensures { LivesAreFounded }
{}

// In a unit's life views rise and rows only grow.
pub fn rows_only_grow()
    ensures { RowsOnlyGrow }
{}
