// The faults of a unit.
ghost use Rattle.unit.specs.Faults.{unit_says};

use base::{Fault, FaultCode, Layer};

// A case per number. The place of 22 to 26 is the unit, of 50 to 56 the sender.
#[derive(Clone, Copy, PartialEq, Eq, Debug)]
pub enum UnitFault {
    // 22: the unit does not lead its view.
    NotLeading(u32),
    // 23: the unit has put in this view.
    PutBefore(u32),
    // 24: no quorum is fully reported.
    NotReported(u32),
    // 25: the choice of every fully reported quorum is torn.
    AllTorn(u32),
    // 26: the view to raise to is not above the unit's, or past the last.
    NotAbove(u32),
    // 50: the sender does not lead the put's view.
    PutByOther(u32),
    // 51: the put is for another view.
    PutForOther(u32),
    // 52: the unit has a row in this view.
    RowThere(u32),
    // 53: no fully reported quorum gives free or only this ticket.
    NotChosen(u32),
    // 54: another ticket was heard of the sender in this view.
    OtherTicket(u32),
    // 55: the report is for another view.
    ReportForOther(u32),
    // 56: another report of the sender is kept.
    OtherReport(u32),
}

impl Fault for UnitFault {
    ghost says = { unit_says };

    fn code(self) -> FaultCode {
        let (number, place) = match self {
            UnitFault::NotLeading(unit) => (22, unit),
            UnitFault::PutBefore(unit) => (23, unit),
            UnitFault::NotReported(unit) => (24, unit),
            UnitFault::AllTorn(unit) => (25, unit),
            UnitFault::NotAbove(unit) => (26, unit),
            UnitFault::PutByOther(sender) => (50, sender),
            UnitFault::PutForOther(sender) => (51, sender),
            UnitFault::RowThere(sender) => (52, sender),
            UnitFault::NotChosen(sender) => (53, sender),
            UnitFault::OtherTicket(sender) => (54, sender),
            UnitFault::ReportForOther(sender) => (55, sender),
            UnitFault::OtherReport(sender) => (56, sender),
        };
        Layer::Unit.refusal(number, place as usize)
    }
}
