// A wire over any store: the questions of each call are asked here, in their order.
ghost use Rattle.base.specs.Asked.{Asked};
ghost use Rattle.wire.specs.Calls.{counts_fault};

use crate::answers::{Counts, Found};
use crate::fault::WireFault;
use crate::packet::Packet;
use crate::store::Store;
use crate::wire::Wire;

impl<S: Store> Wire for S {
    ghost means = { S.means };

    ghost rule = { S.rule };

    fn post(&mut self, from: u32, to: u32, packet: &[u8]) -> Result<(), WireFault> {
        if from >= self.units() || to >= self.units() {
            return Err(WireFault::NotServed(to));
        }
        let packet = Packet::of(packet).ok_or(WireFault::TooLong(to))?;
        self.lay(from, to, packet).ok_or(WireFault::Full(to))
    }

    fn look(&self, unit: u32, place: u32, into: &mut [u8]) -> Result<Found, WireFault> {
        ask_served(self, unit)?;
        let slot = self.slot_of(unit, place).ok_or(WireFault::NoPacket(place))?;
        slot.copy_to(into).ok_or(WireFault::ShortBuffer(unit))
    }

    fn drop(&mut self, unit: u32, place: u32) -> Result<(), WireFault> {
        ask_served(self, unit)?;
        self.take_out(unit, place).ok_or(WireFault::NoPacket(place))
    }

    fn served(&self) -> u32 {
        self.units()
    }

    fn counts(&self, unit: u32) -> Result<Counts, WireFault> {
        self.counts_of(unit).ok_or(WireFault::NotServed(unit))
    }
}

fn ask_served<S: Store>(store: &S, unit: u32) -> Result<(), WireFault>
    ensures { Asked (counts_fault (S.means store.now) unit) result }
{
    if unit < store.units() {
        Ok(())
    } else {
        Err(WireFault::NotServed(unit))
    }
}
