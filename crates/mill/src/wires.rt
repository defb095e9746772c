// One packet over both wires, and a full wire that refuses.
use base::{Fault, PACKET_BYTES};
use boxes::Boxes;
use bus::{Bus, BusSlot};
use packet_write::write_put;
use std::io;
use ticket::Writing;
use wire::{Counts, Found, Slot, Wire, WireFault};

// Posts a packet from unit 0 to unit 1, and says what waits then.
fn post<W: Wire>(wire: &mut W, packet: &[u8]) -> Result<Counts, WireFault> {
    wire.post(0, 1, packet)?;
    wire.counts(1)
}

// Posts three times, once more than there are places, and looks at the oldest packet of unit 1.
fn fill<W: Wire>(rt: &impl Print, wire: &mut W, packet: &[u8]) -> io::Result<()> {
    for _ in 0..3 {
        match post(wire, packet) {
            Ok(Counts { waiting, free }) => println!(rt;
                "posted to unit 1: {waiting} wait, {free} free"
            )?,
            Err(fault) => println!(rt; "refused: {}", fault.code())?,
        }
    }
    let mut bytes = [0; PACKET_BYTES];
    match wire.look(1, 0, &mut bytes) {
        Ok(Found { sender, length }) => println!(rt;
            "unit 1 finds {length} bytes of unit {sender}, kind {}",
            bytes[3]
        ),
        Err(fault) => println!(rt; "refused: {}", fault.code()),
    }
}

// Sends a put of a ticket over both wires.
pub fn show_wires(rt: &impl Print, ticket: Writing) -> io::Result<()> {
    let mut packet = [0; 24];
    let length = write_put(0, ticket, &mut packet).unwrap();
    println!(rt; "a put of {length} bytes: {packet:?}")?;
    println!(rt; "boxes with two places for each of four units")?;
    let mut slots = [Slot::empty(); 8];
    fill(rt, &mut Boxes::make(4, 2, &mut slots).unwrap(), &packet)?;
    println!(rt; "a bus with two places for four units")?;
    let mut slots = [BusSlot::empty(); 2];
    fill(rt, &mut Bus::make(4, 2, &mut slots).unwrap(), &packet)
}
