// What is asked before a shed is made.
ghost use Rattle.std.specs.Prelude.{◌≡◌, ◌≤◌, Some, None, IfOk, MatchResult};
ghost use Rattle.base.specs.Asked.{Asked};
ghost use Rattle.table.specs.Means.{means as table_of};
ghost use Rattle.calls.specs.Worlds.{made_fault, ready as ready-fault, MayMake};

use crate::fault::ShedFault;
use table::Passed;
use wire::{Wire, nothing_waits};

// Is there memory for n units, and does the wire serve just them?
fn ready(n: u32, memory: usize, served: u32) -> Result<(), ShedFault>
    ensures asked { Asked (ready-fault n memory served) result }
    ensures met { IfOk result (λ _. (n ≤ memory) × (served ≡ n)) }
{
    if n as usize > memory || served != n {
        return Err(ShedFault::NoMemory);
    }
    Ok(())
}

// Can a shed be made with this false set, so much memory and this wire?
pub fn ask_making<W: Wire>(
    passed: &Passed<'_>,
    false_set: u16,
    memory: usize,
    wire: &W,
) -> Result<(), ShedFault>
    ensures { MatchResult result
        (λ _. (made_fault (table_of passed.now) false_set memory (W.means wire.now) ≡ None) × MayMake (table_of passed.now) false_set memory (W.means wire.now))
        (λ e. made_fault (table_of passed.now) false_set memory (W.means wire.now) ≡ Some e) }
{
    if !passed.bearable(false_set) {
        return Err(ShedFault::Unbearable);
    }
    let n = passed.table().units;
    ready(n, memory, wire.served())?;
    if !nothing_waits(wire) {
        return Err(ShedFault::Waiting);
    }
    Ok(())
}
