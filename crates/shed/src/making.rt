// Making a shed.
ghost use Rattle.std.specs.Prelude.{◌≡◌, length, replicate, Some, MatchResult};
ghost use Rattle.unit.specs.States.{fresh};
ghost use Rattle.table.specs.Means.{means as table_of};
ghost use Rattle.calls.specs.Worlds.{states_of, made_fault, Makes};
ghost use Rattle.shed.specs.Means.{world_of};

use crate::shed::Shed;
use acting::World;
use calls::{ShedFault, ask_making};
use std::marker::PhantomData;
use table::Passed;
use ticket::Ticket;
use unit::ControlUnit;
use wire::Wire;

// Units are made fresh.
fn renew(units: &mut [ControlUnit])
    ensures { states_of units.new ≡ replicate (length units.old) fresh }
{
    units.fill_with(ControlUnit::fresh);
}

impl<'a, T: Ticket, W: Wire> Shed<'a, T, W> {
    // A shed over lent units, of which the first n are made fresh, and a lent wire on which nothing waits.
    pub fn make(
        table: Passed<'a>,
        false_set: u16,
        units: &'a mut [ControlUnit],
        wire: &'a mut W,
    ) -> Result<Shed<'a, T, W>, ShedFault>
        ensures { MatchResult result
            (λ s. Makes (table_of table.entry) false_set (states_of units.old) (W.means wire.old) (world_of W.means s))
            (λ e. made_fault (table_of table.entry) false_set (length (states_of units.old)) (W.means wire.old) ≡ Some e) }
    {
        ask_making(&table, false_set, units.len(), &*wire)?;
        let n = table.units() as usize;
        renew(&mut units[..n]);
        Ok(Shed {
            world: World {
                table,
                false_set,
                units,
                wire,
            },
            kind: PhantomData,
        })
    }
}
