// The order's ticket: the rose damask's plan as bytes, read back, and a refusal.
ghost use Rattle.std.specs.Prelude.{◌≡◌};
ghost use Rattle.ticket.specs.Plans.{plan_writing};

use base::Fault;
use std::io;
use ticket::Plan;

// The plan of the order: pattern 1987, 4800 ends, 3200 picks, revision 1.
pub fn rose_damask() -> Plan
    ensures { plan_writing result ≡ record { a = 1987; b = 4800; c = 3200; d = 1 } }
{
    Plan::new(1987, 4800, 3200, 1).unwrap()
}

// Reads sixteen bytes as a plan and prints what they say.
fn show_read(rt: &impl Print, bytes: &[u8; 16]) -> io::Result<()> {
    match ticket::read::<Plan>(bytes) {
        Ok(plan) => println!(rt;
            "read: pattern {}, {} ends, {} picks, revision {}",
            plan.pattern(),
            plan.ends(),
            plan.picks(),
            plan.revision()
        ),
        Err(fault) => println!(rt; "refused: {}", fault.code()),
    }
}

pub fn show_tickets(rt: &impl Print) -> io::Result<()> {
    let mut bytes = ticket::write(&rose_damask());
    println!(rt; "the rose damask as bytes: {bytes:?}")?;
    show_read(rt, &bytes)?;
    bytes[4..8].fill(0);
    println!(rt; "the same with no ends: {bytes:?}")?;
    show_read(rt, &bytes)
}
