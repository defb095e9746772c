// Why a wire refuses. Each case carries its place: the addressee, or the unit asked about; for a missing packet the place named.
ghost use Rattle.wire.specs.Faults.{wire_says};

use base::{Fault, FaultCode, Layer};

#[derive(Clone, Copy, PartialEq, Eq, Debug)]
pub enum WireFault {
    // A unit that was named is not served.
    NotServed(u32),
    // The packet is longer than a packet may be.
    TooLong(u32),
    // The addressee has no free place.
    Full(u32),
    // No packet waits at the place named.
    NoPacket(u32),
    // The caller's bytes are fewer than the longest packet.
    ShortBuffer(u32),
    // Units or places out of bounds, or too little memory for them.
    BadMemory,
}

impl Fault for WireFault {
    ghost says = { wire_says };

    fn code(self) -> FaultCode {
        let (number, place) = match self {
            WireFault::NotServed(to) => (70, to),
            WireFault::TooLong(to) => (71, to),
            WireFault::Full(to) => (72, to),
            WireFault::NoPacket(at) => (73, at),
            WireFault::ShortBuffer(unit) => (74, unit),
            WireFault::BadMemory => (75, 0),
        };
        Layer::Wire.refusal(number, place as usize)
    }
}
