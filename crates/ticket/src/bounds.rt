// The bounds of plans and piece orders; specs/Bounds.antt states them for the contracts.
ghost use Rattle.std.specs.Prelude.{◌≡◌};
ghost use Rattle.ticket.specs.Bounds.{ends_fit, picks_fit, looms_fit};

// The most warp threads of a plan.
pub const ENDS: u32 = 32768;

// The most weft threads of a plan.
pub const PICKS: u32 = 1000000;

// The set of all looms.
pub const LOOMS: u32 = 65535;

// Whether a plan can have so many ends.
pub(crate) fn ends_fit(ends: u32) -> bool
    ensures { result ≡ ends_fit ends }
{
    (1..=ENDS).contains(&ends)
}

// Whether a plan can have so many picks, and a piece can be cut at this pick.
pub(crate) fn picks_fit(picks: u32) -> bool
    ensures { result ≡ picks_fit picks }
{
    (1..=PICKS).contains(&picks)
}

// Whether a word is a set of looms that an order can hold.
pub(crate) fn looms_fit(set: u32) -> bool
    ensures { result ≡ looms_fit set }
{
    (1..=LOOMS).contains(&set)
}
