// Calls of a shed with a line for each; whatever they come to, they are steps of the shed's run.
ghost use Rattle.std.specs.Prelude.{◌≡◌, IfOk, Some, Ok};
ghost use Rattle.calls.specs.Calls as call;
ghost use Rattle.calls.specs.Calls.{Did, ways};
ghost use Rattle.calls.specs.declared.shown.Shown.{Shown as Told};
ghost use Rattle.history.specs.Promised.{Promised};
ghost use Rattle.history.specs.Runs.{Run, Continues};
ghost use Rattle.shed.specs.Means.{world_of};

use base::Fault;
use calls::{ShedFault, Shown};
use choice::Choice;
use shed::Shed;
use std::{fmt, io};
use ticket::Ticket;
use wire::{Tally, Wire};

// A call that changes the shed: a unit puts, is handed what waits at a place, raises its view or repeats;
// what waits is lost; a packet is posted under a false unit's number.
#[derive(Drop)]
pub enum Call<'a, T> {
    Put {
        unit: u32,
        ticket: &'a T,
    },
    Deliver {
        unit: u32,
        place: u32,
    },
    Raise {
        unit: u32,
        view: u32,
    },
    Repeat {
        unit: u32,
    },
    Lose {
        unit: u32,
        place: u32,
    },
    Forge {
        sender: u32,
        to: u32,
        packet: &'a [u8],
    },
}

impl<T: Ticket> Call<'_, T> {
    // Makes the call.
    fn make<W: Wire>(&self, shed: &mut Shed<'_, T, W>) -> Result<Tally, ShedFault>
        ensures { Continues (ways T.written T.refuses W.rule) (world_of W.means shed.old) (world_of W.means shed.new) }
    {
        match *self {
            Call::Put { unit, ticket } => shed.put(unit, ticket),
            Call::Deliver { unit, place } => shed.deliver(unit, place),
            Call::Raise { unit, view } => shed.raise(unit, view),
            Call::Repeat { unit } => shed.repeat(unit),
            Call::Lose { unit, place } => shed.lose(unit, place),
            Call::Forge { sender, to, packet } => shed.forge(sender, to, packet),
        }
    }

    // Makes the call and prints it, with how many posts were laid and how many lost, or the fault.
    pub fn show<W: Wire>(&self, rt: &impl Print, shed: &mut Shed<'_, T, W>) -> io::Result<()>
        ensures { Continues (ways T.written T.refuses W.rule) (world_of W.means shed.old) (world_of W.means shed.new) }
    {
        match self.make(shed) {
            Ok(Tally { laid, lost }) => println!(rt; "{self}: {laid} laid, {lost} lost"),
            Err(fault) => println!(rt; "{self}: {}", fault.code()),
        }
    }
}

impl<T: Ticket> fmt::Display for Call<'_, T> {
    fn fmt<W: fmt::Write>(&self, f: &mut fmt::Formatter<W>) -> fmt::Result {
        match self {
            Call::Put { unit, ticket } => write!(f, "unit {unit} puts {}", ticket.writing()),
            Call::Deliver { unit, place } => write!(
                f,
                "unit {unit} is handed what waits at {place}"
            ),
            Call::Raise { unit, view } => write!(f, "unit {unit} raises its view to {view}"),
            Call::Repeat { unit } => write!(f, "unit {unit} repeats"),
            Call::Lose { unit, place } => write!(
                f,
                "what waits for unit {unit} at {place} is lost"
            ),
            Call::Forge { sender, to, packet } => write!(
                f,
                "{} bytes to unit {to} under number {sender}",
                packet.len()
            ),
        }
    }
}

// Shows the choice from a unit's reports of the quorum at a place.
pub fn choice<T: Ticket + Drop, W: Wire>(
    rt: &impl Print,
    shed: &Shed<'_, T, W>,
    unit: u32,
    quorum: u32,
) -> io::Result<()> {
    print!(rt; "unit {unit}, the reports of the quorum at {quorum}: ")?;
    match shed.choice(unit, quorum) {
        Ok(None) => println!(rt; "not fully reported"),
        Ok(Some(Choice::Free)) => println!(rt; "free"),
        Ok(Some(Choice::Only(ticket))) => println!(rt; "only {}", ticket.writing()),
        Ok(Some(Choice::Torn)) => println!(rt; "torn"),
        Err(fault) => println!(rt; "{}", fault.code()),
    }
}

// What a unit has announced, with a line. Where it is a ticket, the shed's announce shows it, and what is promised of a run holds.
pub fn announce<T: Ticket + Drop, W: Wire>(
    rt: &impl Print,
    shed: &Shed<'_, T, W>,
    unit: u32,
) -> io::Result<Option<Shown<T>>>
    ensures shown { IfOk result (λ v. (s : Told T) → v ≡ Some s → Did (ways T.written T.refuses W.rule) (world_of W.means shed.now) (call.announce unit) (Ok (Some s)) (world_of W.means shed.now)) }
    ensures promised { (run : Run (ways T.written T.refuses W.rule) (world_of W.means shed.now)) → Promised (ways T.written T.refuses W.rule) (world_of W.means shed.now) run }
{
    let answer = shed.announce(unit);
    print!(rt; "the announcement of unit {unit}: ")?;
    match answer {
        Ok(Some(shown)) => {
            println!(rt;
                "{}, from view {} by {}",
                shown.ticket.writing(),
                shown.view,
                shown.rule
            )?;
            return Ok(Some(shown));
        }
        Ok(None) => println!(rt; "nothing")?,
        Err(fault) => println!(rt; "{}", fault.code())?,
    }
    Ok(None)
}
