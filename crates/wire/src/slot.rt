// One place for a packet, in memory that is handed in.
ghost use Rattle.std.specs.Prelude.{◌≡◌, ◌<◌, ◌≤◌, [], length, MatchOption};
ghost use Rattle.base.specs.Limits.{packet_bytes};
ghost use Rattle.wire.specs.Meaning.{parcel};

use crate::answers::Found;
use crate::packet::Packet;
use base::PACKET_BYTES;

// The packet is the first `size` of the bytes. Memory is handed in as `[Slot::empty(); n]`, so the bytes are an array, and a slot is `Copy`.
#[derive(Clone, Copy)]
pub struct Slot {
    pub(crate) sender: u32,
    pub(crate) size: usize,
    pub(crate) bytes: [u8; PACKET_BYTES],
    ghost short: { size ≤ packet_bytes },
    ghost whole: { length bytes ≡ packet_bytes },
}

impl Slot {
    ghost use Rattle.wire.specs.Slots.{parcel_of, Copied};

    // A slot with an empty packet of unit 0, to fill memory with.
    pub fn empty() -> Slot
        ensures { parcel_of result ≡ parcel 0 [] }
    {
        Slot {
            sender: 0,
            size: 0,
            bytes: [0; PACKET_BYTES],
        }
    }

    // A slot that holds the packet; none for a packet that is too long.
    pub fn holding(sender: u32, packet: &[u8]) -> Option<Slot>
        ensures { MatchOption result (packet_bytes < length packet.now) (λ s. (length packet.now ≤ packet_bytes) × (parcel_of s ≡ parcel sender packet.now)) }
    {
        let packet = Packet::of(packet)?;
        let mut slot = Slot::empty();
        slot.hold(sender, packet);
        Some(slot)
    }

    // Takes the packet in, in place of the one that it held.
    pub fn hold(&mut self, sender: u32, packet: Packet)
        ensures { parcel_of self.new ≡ parcel sender packet.entry.bytes.now }
    {
        self.sender = sender;
        self.size = packet.bytes.len();
        self.bytes[0..packet.bytes.len()].copy_from_slice(packet.bytes);
    }

    // Copies the packet to the front of the caller's bytes; none, and nothing copied, where they are too few.
    pub fn copy_to(&self, into: &mut [u8]) -> Option<Found>
        ensures { MatchOption result ((length into.old < packet_bytes) × (into.new ≡ into.old)) (λ found. Copied self.now into.old into.new found) }
    {
        if into.len() < PACKET_BYTES {
            return None;
        }
        into[..self.size].copy_from_slice(&self.bytes[..self.size]);
        Some(Found {
            sender: self.sender,
            length: self.size,
        })
    }
}
