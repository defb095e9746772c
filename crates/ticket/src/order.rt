// A piece order, its data within their bounds by their types.
ghost use Rattle.std.specs.Prelude.{◌≡◌, ℕ, ◌^◌, ◌<◌, false, T, MatchOption};
ghost use Rattle.ticket.specs.Bounds.{looms_fit, picks_fit};

use crate::bounds::{looms_fit, picks_fit};

// A set of looms, bit i for loom i.
#[derive(Clone, Copy, PartialEq, Eq, Debug)]
pub struct Looms {
    set: u32,
    ghost word: { set < 2 ^ 32 },
    ghost fit: { T (looms_fit set) },
}

impl Looms {
    // A set of looms, if it is within its bounds.
    pub fn new(set: u32) -> Option<Looms>
        ensures { MatchOption result (looms_fit set ≡ false) (λ l. (T (looms_fit set)) × (l.set ≡ set)) }
    {
        if looms_fit(set) {
            return Some(Looms { set });
        }
        None
    }

    pub fn set(&self) -> u32
        ensures { result ≡ self.now.set }
    {
        self.set
    }
}

// One weft thread of a piece. (A type beside `Looms`: one type with its bound as a parameter would have one word for both numbers.)
#[derive(Clone, Copy, PartialEq, Eq, Debug)]
pub struct Pick {
    number: u32,
    ghost word: { number < 2 ^ 32 },
    ghost fit: { T (picks_fit number) },
}

impl Pick {
    // A pick, if it is within its bounds.
    pub fn new(number: u32) -> Option<Pick>
        ensures { MatchOption result (picks_fit number ≡ false) (λ p. (T (picks_fit number)) × (p.number ≡ number)) }
    {
        if picks_fit(number) {
            return Some(Pick { number });
        }
        None
    }

    pub fn number(&self) -> u32
        ensures { result ≡ self.now.number }
    {
        self.number
    }
}

// What is to be done with the piece on the looms.
#[derive(Clone, Copy, PartialEq, Eq, Debug)]
pub enum Order {
    // weave on
    Run,
    // stop these looms
    Hold(Looms),
    // cut the piece at this pick
    Cut(Pick),
}
