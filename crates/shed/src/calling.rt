// The calls of a shed.
ghost use Rattle.calls.specs.Calls as call;
ghost use Rattle.calls.specs.Calls.{Did, ways};
ghost use Rattle.history.specs.Promised.{Promised};
ghost use Rattle.history.specs.Runs.{Run};
ghost use Rattle.shed.specs.Means.{world_of};

use crate::shed::Shed;
use calls::{ShedFault, Shown, announcement_at, choice_at, show, show_choice};
use choice::Choice;
use ticket::Ticket;
use wire::{Tally, Wire};

impl<'a, T: Ticket, W: Wire> Shed<'a, T, W> {
    // A unit puts a ticket.
    pub fn put(&mut self, unit: u32, ticket: &T) -> Result<Tally, ShedFault>
        ensures { Did (ways T.written T.refuses W.rule) (world_of W.means self.old) (call.put unit ticket.now) result (world_of W.means self.new) }
    {
        self.world.put(unit, ticket.writing())
    }

    // A unit is handed the packet that waits for it at a place; the packet stays waiting.
    pub fn deliver(&mut self, unit: u32, place: u32) -> Result<Tally, ShedFault>
        ensures { Did (ways T.written T.refuses W.rule) (world_of W.means self.old) (call.deliver unit place) result (world_of W.means self.new) }
    {
        // the unit first, then what waits for it
        self.world.deliver::<T>(unit, place)
    }

    // A unit raises its view.
    pub fn raise(&mut self, unit: u32, view: u32) -> Result<Tally, ShedFault>
        ensures { Did (ways T.written T.refuses W.rule) (world_of W.means self.old) (call.raise unit view) result (world_of W.means self.new) }
    {
        self.world.raise(unit, view)
    }

    // A unit sends again what it has of its view.
    pub fn repeat(&mut self, unit: u32) -> Result<Tally, ShedFault>
        ensures { Did (ways T.written T.refuses W.rule) (world_of W.means self.old) (call.repeat unit) result (world_of W.means self.new) }
    {
        self.world.repeat(unit)
    }

    // A packet that waits for a unit is lost.
    pub fn lose(&mut self, unit: u32, place: u32) -> Result<Tally, ShedFault>
        ensures { Did (ways T.written T.refuses W.rule) (world_of W.means self.old) (call.lose unit place) result (world_of W.means self.new) }
    {
        let world = &mut self.world;
        world.sides().ask_named(unit)?;
        world.wire.drop(unit, place)?;
        Ok(Tally { laid: 0, lost: 0 })
    }

    // Any bytes are posted under a false unit's number.
    pub fn forge(&mut self, sender: u32, to: u32, packet: &[u8]) -> Result<Tally, ShedFault>
        ensures { Did (ways T.written T.refuses W.rule) (world_of W.means self.old) (call.forge sender to packet.now) result (world_of W.means self.new) }
    {
        let world = &mut self.world;
        world.sides().ask_forged(sender, to)?;
        world.wire.post(sender, to, packet)?;
        Ok(Tally { laid: 1, lost: 0 })
    }

    fn shown(&self, unit: u32) -> Result<Option<Shown<T>>, ShedFault>
        ensures { Did (ways T.written T.refuses W.rule) (world_of W.means self.now) (call.announce unit) result (world_of W.means self.now) }
    {
        let world = &self.world;
        world.ask(unit)?;
        show::<T>(announcement_at(&world.units, unit))
    }

    // What a unit has announced, if it has, with its ticket as one of the kind. After any calls: no two sound units
    // have announced different tickets, and all else that is promised of a run.
    pub fn announce(&self, unit: u32) -> Result<Option<Shown<T>>, ShedFault>
        ensures did { Did (ways T.written T.refuses W.rule) (world_of W.means self.now) (call.announce unit) result (world_of W.means self.now) }
        ensures promised { (run : Run (ways T.written T.refuses W.rule) (world_of W.means self.now)) → Promised (ways T.written T.refuses W.rule) (world_of W.means self.now) run }
    {
        self.shown(unit)
    }

    // What the reports that a unit keeps of a quorum's units let it put; none where one is missing.
    pub fn choice(&self, unit: u32, quorum: u32) -> Result<Option<Choice<T>>, ShedFault>
        ensures { Did (ways T.written T.refuses W.rule) (world_of W.means self.now) (call.choice unit quorum) result (world_of W.means self.now) }
    {
        let world = &self.world;
        world.ask(unit)?;
        let chosen = choice_at(&world.units, &world.table, unit, quorum);
        show_choice::<T>(chosen)
    }
}
