// Why the shed refuses.
ghost use Rattle.std.specs.Prelude.{◌≡◌};
ghost use Rattle.calls.specs.Faults.{shed_says};
ghost use Rattle.calls.specs.declared.fault.ShedFault.TheVariants as sheds;

use base::{Fault, FaultCode, Layer};
use packet::PacketFault;
use table::TableFault;
use ticket::TicketFault;
use unit::UnitFault;
use wire::WireFault;

// A case per number of the shed's own, with its place inside. What a lower part refused travels whole.
#[derive(Clone, Copy, PartialEq, Eq, Debug)]
pub enum ShedFault {
    // 10: the false set is not bearable.
    Unbearable,
    // 11: there is no memory for the units, or the wire does not serve just them.
    NoMemory,
    // 12: something waits on the wire.
    Waiting,
    // 20: there is no such unit.
    NoUnit(u32),
    // 21: the unit is false, or for a forged packet not false.
    WrongSide(u32),
    Table(TableFault),
    Wire(WireFault),
    Packet(PacketFault),
    Ticket(TicketFault),
    Unit(UnitFault),
}

impl Fault for ShedFault {
    ghost says = { shed_says };

    fn code(self) -> FaultCode {
        match self {
            ShedFault::Unbearable => Layer::Shed.refusal(10, 0),
            ShedFault::NoMemory => Layer::Shed.refusal(11, 0),
            ShedFault::Waiting => Layer::Shed.refusal(12, 0),
            ShedFault::NoUnit(unit) => Layer::Shed.refusal(20, unit as usize),
            ShedFault::WrongSide(unit) => Layer::Shed.refusal(21, unit as usize),
            ShedFault::Table(fault) => fault.code(),
            ShedFault::Wire(fault) => fault.code(),
            ShedFault::Packet(fault) => fault.code(),
            ShedFault::Ticket(fault) => fault.code(),
            ShedFault::Unit(fault) => fault.code(),
        }
    }
}

impl From<TableFault> for ShedFault {
    ghost from_gives = { λ f r. r ≡ sheds.Table f };

    fn from(fault: TableFault) -> ShedFault {
        ShedFault::Table(fault)
    }
}

impl From<WireFault> for ShedFault {
    ghost from_gives = { λ f r. r ≡ sheds.Wire f };

    fn from(fault: WireFault) -> ShedFault {
        ShedFault::Wire(fault)
    }
}

impl From<PacketFault> for ShedFault {
    ghost from_gives = { λ f r. r ≡ sheds.Packet f };

    fn from(fault: PacketFault) -> ShedFault {
        ShedFault::Packet(fault)
    }
}

impl From<TicketFault> for ShedFault {
    ghost from_gives = { λ f r. r ≡ sheds.Ticket f };

    fn from(fault: TicketFault) -> ShedFault {
        ShedFault::Ticket(fault)
    }
}

impl From<UnitFault> for ShedFault {
    ghost from_gives = { λ f r. r ≡ sheds.Unit f };

    fn from(fault: UnitFault) -> ShedFault {
        ShedFault::Unit(fault)
    }
}
