// What holds of every sequence of calls, on every wire.
ghost use Rattle.wire.specs.Runs.{Accounted, Honest, RunsOfSends};

use crate::wire::Wire;

// A unit's list loses only what is dropped, what waits was posted, and a send to all is such a sequence.
pub fn runs_keep_packets<W: Wire>(_wire: &W)
    ensures accounted { Accounted W.rule }
    ensures honest { Honest W.rule }
    ensures sends { RunsOfSends W.rule }
{}
