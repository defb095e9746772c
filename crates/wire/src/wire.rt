// A wire carries packets between the units that it serves.
ghost use Rattle.std.specs.Prelude.{◌≡◌, Some, None, MatchResult};
ghost use Rattle.wire.specs.Calls.{post_fault, look_fault, drop_fault, counts_fault, Looked, Counted, Happens, Refused};
ghost use Rattle.wire.specs.Meaning.{Meaning, Rule, posting, dropping};

use crate::answers::{Counts, Found};
use crate::fault::WireFault;

pub trait Wire {
    // What the wire holds, in the words of its callers.
    ghost means: { Self → Meaning };

    // The builder's rule for free places; generic code carries it along and knows nothing of it.
    ghost rule: { Rule };

    // Adds the packet at the end of its addressee's list.
    fn post(&mut self, from: u32, to: u32, packet: &[u8]) -> Result<(), WireFault>
        ensures { MatchResult result (λ _. Happens rule (means self.old) (posting from to packet.now) (means self.new)) (λ e. Refused (post_fault (means self.old) from to packet.now) e (means self.old) (means self.new)) };

    // Copies a waiting packet to the front of the caller's bytes.
    fn look(&self, unit: u32, place: u32, into: &mut [u8]) -> Result<Found, WireFault>
        ensures { MatchResult result (λ found. (look_fault (means self.now) unit place into.old ≡ None) × Looked (means self.now) unit place into.old into.new found) (λ e. (look_fault (means self.now) unit place into.old ≡ Some e) × (into.new ≡ into.old)) };

    // Takes one waiting packet out; the later ones move up.
    fn drop(&mut self, unit: u32, place: u32) -> Result<(), WireFault>
        ensures { MatchResult result (λ _. Happens rule (means self.old) (dropping unit place) (means self.new)) (λ e. Refused (drop_fault (means self.old) unit place) e (means self.old) (means self.new)) };

    // The units served: 0 to this number less one.
    fn served(&self) -> u32
        ensures { result ≡ (means self.now).served };

    // How many packets wait for the unit, and how many places it has free.
    fn counts(&self, unit: u32) -> Result<Counts, WireFault>
        ensures { MatchResult result (λ counts. (counts_fault (means self.now) unit ≡ None) × Counted (means self.now) unit counts) (λ e. counts_fault (means self.now) unit ≡ Some e) };
}
