// One week of the shed: an order is put, a packet is lost, a false unit lies, the lead passes on, and the units announce.
ghost use Rattle.std.specs.Prelude.{◌≡◌, IfOk, Some};
ghost use Rattle.calls.specs.Calls.{ways};
ghost use Rattle.calls.specs.declared.shown.Shown.{Shown as Told};
ghost use Rattle.history.specs.Runs.{Run, Continues};
ghost use Rattle.shed.specs.Means.{world_of};

use crate::call::{Call, announce, choice};
use crate::days::{Step, WEEK};
use base::Fault;
use calls::Shown;
use mill::mill_table;
use packet_write::{write_report, write_row};
use rows::Row;
use shed::Shed;
use std::io;
use std::ops::Range;
use ticket::{Ticket, Writing};
use unit::ControlUnit;
use wire::Wire;

// What two units have announced.
pub type Pair<T> = (Option<Shown<T>>, Option<Shown<T>>);

// Unit 3 is false.
const FALSE_UNITS: u16 = 8;

// Hands a unit what waits at each of the places.
pub fn deliver_all<T: Ticket, W: Wire>(
    rt: &impl Print,
    shed: &mut Shed<'_, T, W>,
    unit: u32,
    places: Range<u32>,
) -> io::Result<()>
    ensures { Continues (ways T.written T.refuses W.rule) (world_of W.means shed.old) (world_of W.means shed.new) }
{
    for place in places {
        Call::Deliver { unit, place }.show(rt, shed)?;
    }
    Ok(())
}

// What a week is about: the order, another ticket that is handed in later, and the row and the report that the false unit posts.
// Both are whole packets, so each has the length of its kind: a row, and a report of one entry.
#[derive(Drop)]
pub struct Week<T> {
    order: T,
    other: T,
    row: [u8; 32],
    report: [u8; 40],
}

impl<T: Ticket + Drop> Week<T> {
    // A week in which the false unit says a ticket of its own, with the place of the quorum of units 1 to 3 in its set.
    pub fn new(order: T, other: T, said: Writing) -> Week<T> {
        let lie = Row {
            ticket: said,
            set: 16,
            mark: false,
        };
        let mut row = [0; 32];
        let mut report = [0; 40];
        write_row(0, lie, &mut row).unwrap();
        write_report(1, &[Some(lie)], &mut report).unwrap();
        Week {
            order,
            other,
            row,
            report,
        }
    }

    // One step, with its lines.
    fn act<W: Wire>(&self, rt: &impl Print, shed: &mut Shed<'_, T, W>, step: Step) -> io::Result<()>
        ensures { Continues (ways T.written T.refuses W.rule) (world_of W.means shed.old) (world_of W.means shed.new) }
    {
        let call = match step {
            Step::On(day) => return println!(rt; "{day}"),
            Step::Choice { unit, quorum } => return choice(rt, shed, unit, quorum),
            Step::Deliver { unit, from, to } => return deliver_all(rt, shed, unit, from..to),
            Step::PutOrder { unit } => Call::Put {
                unit,
                ticket: &self.order,
            },
            Step::PutOther { unit } => Call::Put {
                unit,
                ticket: &self.other,
            },
            Step::Raise { unit, view } => Call::Raise { unit, view },
            Step::Repeat { unit } => Call::Repeat { unit },
            Step::Lose { unit, place } => Call::Lose { unit, place },
            Step::ForgeRow { sender, to } => Call::Forge {
                sender,
                to,
                packet: &self.row,
            },
            Step::ForgeReport { sender, to } => Call::Forge {
                sender,
                to,
                packet: &self.report,
            },
        };
        call.show(rt, shed)
    }

    // One step after another.
    pub fn run<W: Wire>(
        &self,
        rt: &impl Print,
        shed: &mut Shed<'_, T, W>,
        steps: &[Step],
    ) -> io::Result<()>
        ensures { Continues (ways T.written T.refuses W.rule) (world_of W.means shed.old) (world_of W.means shed.new) }
    {
        for step in steps {
            self.act(rt, shed, *step)?;
        }
        Ok(())
    }

    // Goes through any steps and shows what units 0 and 2 announced: from a made shed on, they announced one ticket.
    pub fn compare<W: Wire>(
        &self,
        rt: &impl Print,
        shed: &mut Shed<'_, T, W>,
        steps: &[Step],
    ) -> io::Result<Pair<T>>
        ensures { Run (ways T.written T.refuses W.rule) (world_of W.means shed.old) → IfOk result (λ v. (s t : Told T) → v.0 ≡ Some s → v.1 ≡ Some t → s.ticket ≡ t.ticket) }
    {
        self.run(rt, shed, steps)?;
        let first = announce(rt, shed, 0)?;
        let second = announce(rt, shed, 2)?;
        Ok((first, second))
    }

    // The week over any wire: where units 0 and 2 have announced, their tickets are one.
    pub fn over<W: Wire>(
        &self,
        rt: &impl Print,
        units: &mut [ControlUnit],
        wire: &mut W,
    ) -> io::Result<Pair<T>>
        ensures { IfOk result (λ v. (s t : Told T) → v.0 ≡ Some s → v.1 ≡ Some t → s.ticket ≡ t.ticket) }
    {
        match Shed::make(mill_table(), FALSE_UNITS, units, wire) {
            Ok(mut shed) => self.compare(rt, &mut shed, &WEEK),
            Err(fault) => {
                println!(rt; "{}", fault.code())?;
                Ok((None, None))
            }
        }
    }
}
