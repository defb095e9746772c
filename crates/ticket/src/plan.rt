// A weaving plan, within its bounds by its type.
ghost use Rattle.std.specs.Prelude.{◌≡◌, ℕ, ◌^◌, ◌<◌, false, ◌&&◌, T, MatchOption};
ghost use Rattle.ticket.specs.Bounds.{ends_fit, picks_fit};

use crate::bounds::{ends_fit, picks_fit};

// A pattern's number, the warp threads (ends), the weft threads (picks) and the plan's revision.
#[derive(Clone, Copy, PartialEq, Eq, Debug)]
pub struct Plan {
    pattern: u32,
    ends: u32,
    picks: u32,
    revision: u32,
    ghost words: { (pattern < 2 ^ 32) × (ends < 2 ^ 32) × (picks < 2 ^ 32) × (revision < 2 ^ 32) },
    ghost endsok: { T (ends_fit ends) },
    ghost picksok: { T (picks_fit picks) },
}

impl Plan {
    // A plan, if ends and picks are within their bounds.
    pub fn new(pattern: u32, ends: u32, picks: u32, revision: u32) -> Option<Plan>
        ensures { MatchOption result ((ends_fit ends && picks_fit picks) ≡ false) (λ p. (T (ends_fit ends && picks_fit picks)) × (p.pattern ≡ pattern) × (p.ends ≡ ends) × (p.picks ≡ picks) × (p.revision ≡ revision)) }
    {
        if ends_fit(ends) && picks_fit(picks) {
            return Some(Plan {
                pattern,
                ends,
                picks,
                revision,
            });
        }
        None
    }

    pub fn pattern(&self) -> u32
        ensures { result ≡ self.now.pattern }
    {
        self.pattern
    }

    pub fn ends(&self) -> u32
        ensures { result ≡ self.now.ends }
    {
        self.ends
    }

    pub fn picks(&self) -> u32
        ensures { result ≡ self.now.picks }
    {
        self.picks
    }

    pub fn revision(&self) -> u32
        ensures { result ≡ self.now.revision }
    {
        self.revision
    }
}
