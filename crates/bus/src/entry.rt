// One place of the bus: a packet and the unit that it waits for.
ghost use Rattle.std.specs.Prelude.{◌≡◌, []};
ghost use Rattle.wire.specs.Meaning.{parcel};

use wire::{Packet, Slot};

#[derive(Clone, Copy)]
pub struct BusSlot {
    pub(crate) to: u32,
    pub(crate) slot: Slot,
}

impl BusSlot {
    ghost use Rattle.bus.specs.Store.{packet_of};

    // A slot to fill memory with.
    pub fn empty() -> BusSlot
        ensures { (result.to ≡ 0) × (packet_of result ≡ parcel 0 []) }
    {
        BusSlot {
            to: 0,
            slot: Slot::empty(),
        }
    }

    // Takes the packet in, in place of the one that it held.
    pub(crate) fn hold(&mut self, from: u32, to: u32, packet: Packet)
        ensures to { self.new.to ≡ to }
        ensures packet { packet_of self.new ≡ parcel from packet.entry.bytes.now }
    {
        self.to = to;
        self.slot.hold(from, packet);
    }
}
