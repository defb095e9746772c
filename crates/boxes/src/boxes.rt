// A box of slots for each unit, in memory that is handed in.
ghost use Rattle.std.specs.Prelude.{ℕ, ◌≡◌, ◌+◌, ◌*◌, ◌≤◌, ◌<◌, length, slice_index, Some, None, IfOk, MatchOption, MatchResult};
ghost use Rattle.wire.specs.Calls.{Refused};
ghost use Rattle.wire.specs.Making.{InBounds, make_fault, Made};
ghost use Rattle.wire.specs.Sends.{SentAll, send_fault};
ghost use Rattle.wire.specs.Stores.{Waits};
ghost use Rattle.boxes.specs.Bounds.{box_places_most};
ghost use Rattle.boxes.specs.Rooms.{OwnPlaces, boxes_rule, with_room};

use base::UNIT_COUNT;
use wire::{Counts, Packet, Slot, Store, Tally, WireFault};

// The most places that a unit may have; specs/Bounds.antt states it for the contracts.
pub const PLACES: u32 = 64;

// Unit u has the slots from u * places to u * places + places - 1; the first counts[u] of them hold its packets, oldest first.
#[derive(Drop)]
pub struct Boxes<'a> {
    pub(crate) slots: &'a mut [Slot],
    pub(crate) counts: [u32; UNIT_COUNT],
    pub(crate) units: u32,
    pub(crate) places: u32,
    ghost sized: { InBounds box_places_most units places },
    ghost memory: { units * places ≤ length slots.now },
    ghost counted: { (u : ℕ) → slice_index counts u ≤ places },
}

impl<'a> Boxes<'a> {
    ghost use Rattle.boxes.specs.Store.{means_of};

    // Boxes for the units 0 to units - 1 in the slots handed in; nothing waits, whatever they held.
    pub fn make(units: u32, places: u32, slots: &'a mut [Slot]) -> Result<Boxes<'a>, WireFault>
        ensures { MatchResult result (λ b. (make_fault box_places_most units places (units * places) (length slots.old) ≡ None) × Made (means_of b) units places) (λ e. make_fault box_places_most units places (units * places) (length slots.old) ≡ Some e) }
    {
        let needed = units as usize * places as usize;
        wire::ask_memory(PLACES, units, places, needed, slots.len())?;
        Ok(Boxes {
            slots,
            counts: [0; UNIT_COUNT],
            units,
            places,
        })
    }

    // The places of each unit: what it has free and what waits for it, together.
    pub fn places(&self) -> u32
        ensures { OwnPlaces result (means_of self.now) }
    {
        self.places
    }

    // The send to all: as many are laid as units below n have a free place at the start.
    // Written for each wire, since each promises its own count.
    pub fn send_all(&mut self, from: u32, n: u32, packet: &[u8]) -> Result<Tally, WireFault>
        ensures exact { MatchResult result (λ tally. SentAll boxes_rule (means_of self.old) from n packet.now tally (means_of self.new)) (λ e. Refused (send_fault (means_of self.old) from n packet.now) e (means_of self.old) (means_of self.new)) }
        ensures laid { IfOk result (λ tally. tally.laid ≡ with_room (means_of self.old) n) }
    {
        wire::send_all(self, from, n, packet)
    }

    // How many packets wait for the unit; none where it is not served.
    fn waiting_for(&self, unit: u32) -> Option<u32>
        ensures { MatchOption result (self.now.units ≤ unit) (λ n. (unit < self.now.units) × (n ≡ slice_index self.now.counts unit)) }
    {
        self.counts[..self.units as usize]
            .get(unit as usize)
            .copied()
    }

    // The index of the slot with the packet that waits for the unit at the place; none where none waits.
    fn find(&self, unit: u32, place: u32) -> Option<usize>
        ensures { MatchOption result (Waits (means_of self.now) unit place → ⊥) (λ at. Waits (means_of self.now) unit place × (place < slice_index self.now.counts unit) × (at ≡ unit * self.now.places + place)) }
    {
        if place >= self.waiting_for(unit)? {
            return None;
        }
        Some((unit * self.places + place) as usize)
    }
}

impl Store for Boxes<'_> {
    ghost use Rattle.boxes.specs.Store.{means_of};

    ghost means = { means_of };

    ghost rule = { boxes_rule };

    fn units(&self) -> u32 {
        self.units
    }

    fn counts_of(&self, unit: u32) -> Option<Counts> {
        let waiting = self.waiting_for(unit)?;
        Some(Counts {
            waiting,
            free: self.places - waiting,
        })
    }

    fn lay(&mut self, from: u32, to: u32, packet: Packet) -> Option<()> {
        let n = self.waiting_for(to)?;
        if n >= self.places {
            return None;
        }
        let at = (to * self.places + n) as usize;
        // The whole slice is lent first: a slot is not lent as `&mut` through a struct with facts in its type.
        let slots = &mut *self.slots;
        slots[at].hold(from, packet);
        self.counts[to as usize] = n + 1;
        Some(())
    }

    fn slot_of(&self, unit: u32, place: u32) -> Option<&Slot> {
        let at = self.find(unit, place)?;
        let slots = &*self.slots;
        Some(&slots[at])
    }

    fn take_out(&mut self, unit: u32, place: u32) -> Option<()> {
        let at = self.find(unit, place)?;
        let n = self.counts[unit as usize];
        let end = at + (n - place) as usize;
        self.slots.copy_within(at + 1..end, at);
        self.counts[unit as usize] = n - 1;
        Some(())
    }
}
