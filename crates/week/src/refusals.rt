// Sheds that are not made, and calls that are refused.
use crate::call::{Call, announce};
use base::{Fault, PACKET_BYTES};
use boxes::Boxes;
use calls::ShedFault;
use mill::mill_table;
use shed::Shed;
use std::{fmt, io};
use ticket::{Plan, Ticket};
use unit::ControlUnit;
use wire::{Slot, Wire};

// A shed that is made or not: which units are false, for how many there is memory, how many the wire serves, and a packet that waits already.
#[derive(Clone, Copy)]
struct Making {
    false_set: u16,
    memory: usize,
    served: u32,
    waiting: Option<&'static [u8]>,
}

// One that is made.
const FINE: Making = Making {
    false_set: 8,
    memory: 4,
    served: 4,
    waiting: None,
};

// The others differ from it in one thing.
const MAKINGS: [Making; 7] = [
    FINE,
    Making {
        false_set: 12,
        ..FINE
    },
    Making {
        false_set: 16,
        ..FINE
    },
    Making { memory: 3, ..FINE },
    Making { served: 3, ..FINE },
    Making { served: 5, ..FINE },
    Making {
        waiting: Some(&[1]),
        ..FINE
    },
];

impl Making {
    // Tries to make it.
    fn make(self, units: &mut [ControlUnit]) -> Result<(), ShedFault> {
        let mut slots = [Slot::empty(); 8];
        let mut wire = Boxes::make(self.served, 1, &mut slots)?;
        if let Some(packet) = self.waiting {
            wire.post(0, 1, packet)?;
        }
        let memory = units.len().min(self.memory);
        let _shed: Shed<Plan, Boxes> = Shed::make(
            mill_table(),
            self.false_set,
            &mut units[..memory],
            &mut wire,
        )?;
        Ok(())
    }
}

impl fmt::Display for Making {
    fn fmt<W: fmt::Write>(&self, f: &mut fmt::Formatter<W>) -> fmt::Result {
        write!(
            f,
            "false set {}, {} units, a wire that serves {}",
            self.false_set, self.memory, self.served
        )
    }
}

// The shed's own questions at making.
pub fn show_makings(rt: &impl Print, units: &mut [ControlUnit]) -> io::Result<()> {
    for making in MAKINGS {
        match making.make(units) {
            Ok(()) => println!(rt; "{making}: made")?,
            Err(fault) => println!(rt; "{making}: {}", fault.code())?,
        }
    }
    Ok(())
}

// Calls of a shed whose units have one place each. For any kind of ticket: tried with plans alone, and a call that refers to one,
// whose type has facts, gets no proof.
fn show_calls<T: Ticket + Drop, W: Wire>(
    rt: &impl Print,
    shed: &mut Shed<'_, T, W>,
    order: &T,
) -> io::Result<()> {
    let calls = [
        Call::Forge {
            sender: 3,
            to: 1,
            packet: &[1, 2, 3],
        },
        Call::Deliver { unit: 1, place: 0 },
        Call::Put {
            unit: 0,
            ticket: order,
        },
        Call::Forge {
            sender: 3,
            to: 1,
            packet: &[1, 2, 3, 4],
        },
        Call::Forge {
            sender: 3,
            to: 2,
            packet: &[0; PACKET_BYTES + 1],
        },
        Call::Raise { unit: 0, view: 0 },
        Call::Repeat { unit: 2 },
        Call::Lose { unit: 3, place: 0 },
        Call::Lose { unit: 3, place: 0 },
    ];
    for call in calls {
        call.show(rt, shed)?;
    }
    Ok(())
}

// What the calls refuse, over boxes that are soon full.
pub fn show_refusals(rt: &impl Print, units: &mut [ControlUnit], order: &Plan) -> io::Result<()> {
    let mut slots = [Slot::empty(); 4];
    let mut wire = Boxes::make(4, 1, &mut slots).unwrap();
    let mut shed = match Shed::make(mill_table(), 8, units, &mut wire) {
        Ok(shed) => shed,
        Err(fault) => return println!(rt; "{}", fault.code()),
    };
    show_calls(rt, &mut shed, order)?;
    for unit in [0, 3, 9] {
        announce(rt, &shed, unit)?;
    }
    Ok(())
}
