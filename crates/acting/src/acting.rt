// One unit of a world acts.
ghost use Rattle.std.specs.Prelude.{◌≡◌, ◌<◌, IfOk};
ghost use Rattle.base.specs.Asked.{Asked};
ghost use Rattle.unit.specs.Acts.{putting, raising, repeating};
ghost use Rattle.calls.specs.Calls.{Answered, Acts, acting_fault, delivering, delivery_fault};
ghost use Rattle.calls.specs.Worlds.{asked};
ghost use Rattle.acting.specs.Means.{world_of};

use crate::letters::letter_of;
use crate::world::World;
use base::{PACKET_BYTES, VIEW_COUNT};
use calls::{ShedFault, Sides};
use sending::go_out;
use ticket::{Ticket, Writing};
use wire::{Tally, Wire};

impl<'a, W: Wire> World<'a, W> {
    // How many units there are, and which of them are false.
    pub fn sides(&self) -> Sides
        ensures { result ≡ record { units = self.now.table.units; false_set = self.now.false_set } }
    {
        Sides {
            units: self.table.units(),
            false_set: self.false_set,
        }
    }

    // What is asked first of a unit that is to be worked with.
    pub fn ask(&self, unit: u32) -> Result<(), ShedFault>
        ensures asked { Asked (asked (world_of W.means self.now) unit) result }
        ensures there { IfOk result (λ _. unit < self.now.table.units) }
    {
        self.sides().ask_sound(unit)
    }

    // A unit puts a ticket.
    pub fn put(&mut self, unit: u32, ticket: Writing) -> Result<Tally, ShedFault>
        ensures { Answered (acting_fault (world_of W.means self.old) unit (putting ticket)) (Acts W.rule (world_of W.means self.old) unit (putting ticket))
            (world_of W.means self.old) result (world_of W.means self.new) }
    {
        self.ask(unit)?;
        let units = &mut *self.units;
        let putter = &mut units[unit as usize];
        let sends = putter.put(&self.table, unit, ticket)?;
        Ok(go_out(&mut *self.wire, unit, putter, sends))
    }

    // A unit raises its view.
    pub fn raise(&mut self, unit: u32, view: u32) -> Result<Tally, ShedFault>
        ensures { Answered (acting_fault (world_of W.means self.old) unit (raising view)) (Acts W.rule (world_of W.means self.old) unit (raising view))
            (world_of W.means self.old) result (world_of W.means self.new) }
    {
        self.ask(unit)?;
        let units = &mut *self.units;
        let raiser = &mut units[unit as usize];
        let sends = raiser.raise(unit, view)?;
        Ok(go_out(&mut *self.wire, unit, raiser, sends))
    }

    // A unit repeats what it sent in its view, and stays as it is.
    pub fn repeat(&mut self, unit: u32) -> Result<Tally, ShedFault>
        ensures { Answered (acting_fault (world_of W.means self.old) unit repeating) (Acts W.rule (world_of W.means self.old) unit repeating)
            (world_of W.means self.old) result (world_of W.means self.new) }
    {
        self.ask(unit)?;
        let units = &mut *self.units;
        let repeater = &mut units[unit as usize];
        let sends = repeater.repeat();
        Ok(go_out(&mut *self.wire, unit, repeater, sends))
    }

    // A unit is handed what waits for it at a place, which stays waiting.
    pub fn deliver<T: Ticket>(&mut self, unit: u32, place: u32) -> Result<Tally, ShedFault>
        ensures { Answered (delivery_fault T.refuses (world_of W.means self.old) unit place) (Acts W.rule (world_of W.means self.old) unit (delivering (world_of W.means self.old) unit place))
            (world_of W.means self.old) result (world_of W.means self.new) }
    {
        self.ask(unit)?;
        let mut bytes = [0; PACKET_BYTES];
        let found = self.wire.look(unit, place, &mut bytes)?;
        let message = packet::read::<T>(&bytes[..found.length], self.table.quorum_count())?;
        let mut rows = [None; VIEW_COUNT];
        let letter = letter_of(message, &mut rows);
        let units = &mut *self.units;
        let receiver = &mut units[unit as usize];
        let sends = receiver.receive(&self.table, found.sender, letter)?;
        Ok(go_out(&mut *self.wire, unit, receiver, sends))
    }
}
