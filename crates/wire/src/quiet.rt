// Whether anything waits at all.
ghost use Rattle.std.specs.Prelude.{◌<◌, ◌≡◌, [], Decides};
ghost use Rattle.wire.specs.Runs.{Quiet};

use crate::wire::Wire;

// Whether no packet waits for any unit served.
pub fn nothing_waits<W: Wire>(wire: &W) -> bool
    ensures { Decides result (Quiet (W.means wire.now)) }
{
    (0..wire.served()).all(|unit| is_quiet(wire, unit))
}

// Whether the unit is served and no packet waits for it.
fn is_quiet<W: Wire>(wire: &W, unit: u32) -> bool
    ensures { Decides result ((unit < (W.means wire.now).served) × ((W.means wire.now).waiting unit ≡ [])) }
{
    wire.counts(unit).is_ok_and(|counts| counts.waiting == 0)
}
