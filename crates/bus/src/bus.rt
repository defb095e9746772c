// One row of slots for all units, in memory that is handed in.
ghost use Rattle.std.specs.Prelude.{ℕ, ◌≡◌, ◌≤◌, ◌<◌, [], length, min, slice_index_or, Some, None, IfOk, MatchOption, MatchResult};
ghost use Rattle.wire.specs.Calls.{Refused};
ghost use Rattle.wire.specs.Making.{InBounds, make_fault, Made};
ghost use Rattle.wire.specs.Meaning.{parcel};
ghost use Rattle.wire.specs.Sends.{SentAll, send_fault};
ghost use Rattle.bus.specs.Bounds.{bus_places_most};
ghost use Rattle.bus.specs.Shared.{SharedPlaces, bus_rule};
ghost use Rattle.bus.specs.declared.entry.BusSlot.{BusSlot};

use crate::entry::BusSlot;
use wire::{Counts, Packet, Slot, Store, Tally, WireFault};

// The most places that a bus may have; specs/Bounds.antt states it for the contracts.
pub const PLACES: u32 = 1024;

// The first `used` slots hold the packets that wait, for whatever unit, in the order of posting.
#[derive(Drop)]
pub struct Bus<'a> {
    pub(crate) slots: &'a mut [BusSlot],
    pub(crate) used: usize,
    pub(crate) units: u32,
    pub(crate) places: u32,
    ghost sized: { InBounds bus_places_most units places },
    ghost memory: { places ≤ length slots.now },
    ghost within: { used ≤ places },
    ghost addressed: { (k : ℕ) (d : BusSlot) → k < used → (slice_index_or slots.now k d).to < units },
}

impl<'a> Bus<'a> {
    ghost use Rattle.bus.specs.Store.{means_of, Stands};

    // A bus for the units 0 to units - 1 in the slots handed in; nothing waits, whatever they held.
    pub fn make(units: u32, places: u32, slots: &'a mut [BusSlot]) -> Result<Bus<'a>, WireFault>
        ensures { MatchResult result (λ b. (make_fault bus_places_most units places places (length slots.old) ≡ None) × Made (means_of b) units places) (λ e. make_fault bus_places_most units places places (length slots.old) ≡ Some e) }
    {
        wire::ask_memory(PLACES, units, places, places as usize, slots.len())?;
        Ok(Bus {
            slots,
            used: 0,
            units,
            places,
        })
    }

    // The places of the bus: what is free and what waits for any unit, together.
    pub fn places(&self) -> u32
        ensures { SharedPlaces result (means_of self.now) }
    {
        self.places
    }

    // The send to all: the first are laid, as many as there are free places at the start.
    // Written for each wire, since each promises its own count.
    pub fn send_all(&mut self, from: u32, n: u32, packet: &[u8]) -> Result<Tally, WireFault>
        ensures exact { MatchResult result (λ tally. SentAll bus_rule (means_of self.old) from n packet.now tally (means_of self.new)) (λ e. Refused (send_fault (means_of self.old) from n packet.now) e (means_of self.old) (means_of self.new)) }
        ensures laid { IfOk result (λ tally. tally.laid ≡ min n ((means_of self.old).free 0)) }
    {
        wire::send_all(self, from, n, packet)
    }

    // How many packets wait for the unit: a walk over the used slots. (Tried as a filter that is counted: twice the time.)
    fn waiting_for(&self, unit: u32) -> usize
        ensures exact { result ≡ length ((means_of self.now).waiting unit) }
        ensures some { result ≤ self.now.used }
    {
        let mut waiting = 0;
        for slot in &self.slots[..self.used] {
            waiting += usize::from(slot.to == unit);
        }
        waiting
    }

    // The index of the slot with the packet that waits for the unit at the place; none where none waits.
    fn find(&self, unit: u32, place: u32) -> Option<usize>
        ensures { MatchOption result (length ((means_of self.now).waiting unit) ≤ place) (λ at. Stands self.now.slots.now self.now.used unit place at) }
    {
        self.slots[..self.used]
            .iter()
            .enumerate()
            .filter(|(_, slot)| slot.to == unit)
            .nth(place as usize)
            .map(|(at, _)| at)
    }
}

impl Store for Bus<'_> {
    ghost use Rattle.bus.specs.Store.{means_of};

    ghost means = { means_of };

    ghost rule = { bus_rule };

    fn units(&self) -> u32 {
        self.units
    }

    fn counts_of(&self, unit: u32) -> Option<Counts> {
        if unit >= self.units {
            return None;
        }
        Some(Counts {
            waiting: self.waiting_for(unit) as u32,
            free: self.places - self.used as u32,
        })
    }

    fn lay(&mut self, from: u32, to: u32, packet: Packet) -> Option<()> {
        if to >= self.units || self.used >= self.places as usize {
            return None;
        }
        let at = self.used;
        // The whole slice is lent first: a slot is not lent as `&mut` through a struct with facts in its type.
        let slots = &mut *self.slots;
        slots[at].hold(from, to, packet);
        self.used += 1;
        Some(())
    }

    fn slot_of(&self, unit: u32, place: u32) -> Option<&Slot> {
        let at = self.find(unit, place)?;
        let slots = &*self.slots;
        Some(&slots[at].slot)
    }

    fn take_out(&mut self, unit: u32, place: u32) -> Option<()> {
        let at = self.find(unit, place)?;
        self.slots.copy_within(at + 1..self.used, at);
        self.used -= 1;
        Some(())
    }
}
