// The program: one order of the mill, from its table to the announced ticket. Each part prints what it did and what came of it.
#![tactic(auto)]

mod call;
mod days;
mod refusals;
mod week;

use boxes::Boxes;
use bus::{Bus, BusSlot};
use mill::{change_table, check_tables, rose_damask, show_tickets, show_wires};
use std::io;
use ticket::{Order, Pick, Plan, Ticket};
use unit::ControlUnit;
use week::{Pair, Week};
use wire::Slot;

// Compares the cloths that two units would weave.
fn print_compared<T: Ticket + Drop>(rt: &impl Print, pair: Pair<T>) -> io::Result<()> {
    let (first, second) = pair;
    let Some(first) = first else {
        return println!(rt; "the first has announced nothing");
    };
    let Some(second) = second else {
        return println!(rt; "the second has announced nothing");
    };
    if first.ticket.writing() == second.ticket.writing() {
        println!(rt; "the cloths are one")
    } else {
        println!(rt; "the cloths differ: scrap")
    }
}

// The units agree on the rose damask, over both wires. The false unit knows it by its pattern alone.
fn weave_plans(rt: &impl Print, units: &mut [ControlUnit]) -> io::Result<()> {
    let other = Plan::new(2024, 1200, 800, 3).unwrap();
    let by_name = Plan::new(1987, 1, 1, 0).unwrap();
    let plans = Week::new(rose_damask(), other, by_name.writing());
    let mut slots = [Slot::empty(); 256];
    let mut boxes = Boxes::make(4, 64, &mut slots).unwrap();
    println!(rt; "the week over boxes, with plans")?;
    print_compared(rt, plans.over(rt, units, &mut boxes)?)?;
    // too few places for the last packets of the week
    let mut slots = [BusSlot::empty(); 70];
    let mut bus = Bus::make(4, 70, &mut slots).unwrap();
    println!(rt; "the week over a bus, with plans")?;
    print_compared(rt, plans.over(rt, units, &mut bus)?)
}

// The same week with piece orders: cut at a pick, or run on.
fn weave_pieces(rt: &impl Print, units: &mut [ControlUnit]) -> io::Result<()> {
    let cut = Order::Cut(Pick::new(3200).unwrap());
    let said = Order::Cut(Pick::new(1).unwrap());
    let orders = Week::new(cut, Order::Run, said.writing());
    let mut slots = [BusSlot::empty(); 128];
    let mut bus = Bus::make(4, 128, &mut slots).unwrap();
    println!(rt; "the week over a bus, with piece orders")?;
    print_compared(rt, orders.over(rt, units, &mut bus)?)
}

fn main(rt: HostRuntime) -> io::Result<()> {
    check_tables(&rt)?;
    change_table(&rt)?;
    show_tickets(&rt)?;
    let order = rose_damask();
    show_wires(&rt, order.writing())?;
    // written out: made by `from_fn`, the units are filled with nothing first and then moved
    let mut units = [
        ControlUnit::fresh(),
        ControlUnit::fresh(),
        ControlUnit::fresh(),
        ControlUnit::fresh(),
    ];
    println!(rt; "sheds that are made or not")?;
    refusals::show_makings(&rt, &mut units)?;
    println!(rt; "a shed over boxes with one place for each unit")?;
    refusals::show_refusals(&rt, &mut units, &order)?;
    weave_plans(&rt, &mut units)?;
    weave_pieces(&rt, &mut units)
}
