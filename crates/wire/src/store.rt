// How a wire keeps the packets that wait: what the builder of a wire writes. It answers whether; `over.rt` says which fault.
ghost use Rattle.std.specs.Prelude.{◌≡◌, ◌≤◌, ◌<◌, MatchOption};
ghost use Rattle.wire.specs.Calls.{Posted, Dropped, Counted, waits_at};
ghost use Rattle.wire.specs.Meaning.{Meaning, Rule, posting, dropping};
ghost use Rattle.wire.specs.Slots.{parcel_of};
ghost use Rattle.wire.specs.Stores.{HasRoom, Waits};

use crate::answers::Counts;
use crate::packet::Packet;
use crate::slot::Slot;

pub trait Store {
    // What is kept, in the words of the wire's callers.
    ghost means: { Self → Meaning };

    // The rule for free places.
    ghost rule: { Rule };

    // The units served: 0 to this number less one.
    fn units(&self) -> u32
        ensures { result ≡ (means self.now).served };

    // How many packets wait for the unit, and how many places it has free; none where it is not served.
    fn counts_of(&self, unit: u32) -> Option<Counts>
        ensures { MatchOption result ((means self.now).served ≤ unit) (λ counts. (unit < (means self.now).served) × Counted (means self.now) unit counts) };

    // Lays the packet at the end of the addressee's list; none, and nothing done, where there is no place for it.
    fn lay(&mut self, from: u32, to: u32, packet: Packet) -> Option<()>
        ensures { MatchOption result ((HasRoom (means self.old) to → ⊥) × (means self.new ≡ means self.old)) (λ _. HasRoom (means self.old) to × Posted (means self.old) from to packet.entry.bytes.now (means self.new) × rule (means self.old) (posting from to packet.entry.bytes.now) (means self.new)) };

    // The slot of the packet that waits for the unit at the place; none where none waits.
    fn slot_of(&self, unit: u32, place: u32) -> Option<&Slot>
        ensures { MatchOption result (Waits (means self.now) unit place → ⊥) (λ slot. Waits (means self.now) unit place × (waits_at (means self.now) unit place ≡ parcel_of slot.now)) };

    // Takes that packet out of the unit's list; none, and nothing done, where none waits.
    fn take_out(&mut self, unit: u32, place: u32) -> Option<()>
        ensures { MatchOption result ((Waits (means self.old) unit place → ⊥) × (means self.new ≡ means self.old)) (λ _. Waits (means self.old) unit place × Dropped (means self.old) unit place (means self.new) × rule (means self.old) (dropping unit place) (means self.new)) };
}
