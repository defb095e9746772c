// The stage of a row.
ghost use Rattle.std.specs.Prelude.{◌≡◌};
ghost use Rattle.unit.specs.Letters.{stage_of};

use rows::Row;

// How far the own row of the unit's view has come: there is none, it holds a ticket, it has a set, it has the mark.
#[derive(Clone, Copy, PartialEq, Eq, Debug)]
pub enum Stage {
    None,
    Held,
    Set,
    Marked,
}

impl From<Option<Row>> for Stage {
    ghost from_gives = { λ said stage. stage ≡ stage_of said };

    fn from(said: Option<Row>) -> Stage {
        match said {
            None => Stage::None,
            Some(row) if row.mark => Stage::Marked,
            Some(row) if row.set != 0 => Stage::Set,
            Some(_) => Stage::Held,
        }
    }
}
