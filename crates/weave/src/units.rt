// Four units driven by hand: a put, its rows, the announcements, and the lead passed on.
use base::Fault;
use std::io;
use table::Passed;
use ticket::Writing;
use unit::{ControlUnit, Letter, Sends, UnitFault};

// Gives a letter of a sender to each unit.
fn give(units: &mut [ControlUnit], passed: &Passed<'_>, sender: u32, letter: Letter<'_>) {
    for unit in units {
        let _ = unit.receive(passed, sender, letter);
    }
}

// Gives the own rows of units 0 to 2 in a view to every unit, as far as they have one. A number counts the senders, since a row goes to all units.
fn give_rows(units: &mut [ControlUnit; 4], passed: &Passed<'_>, view: u32) {
    for sender in 0..3 {
        if let Some(row) = units[sender].own_row(view) {
            give(units, passed, sender as u32, Letter::Row { view, row });
        }
    }
}

// Prints what a unit holds in a view and what it announced.
fn show_unit(rt: &impl Print, name: usize, unit: &ControlUnit, view: u32) -> io::Result<()> {
    match unit.own_row(view) {
        None => print!(rt; "unit {name}: no row")?,
        Some(row) => print!(rt;
            "unit {name}: pattern {}, set {}, mark {}",
            row.ticket.a, row.set, row.mark
        )?,
    }
    match unit.announcement() {
        None => println!(rt; ", nothing announced"),
        Some(said) => println!(rt;
            ", announced pattern {} from view {} by {}",
            said.ticket.a, said.view, said.rule
        ),
    }
}

fn show_all(rt: &impl Print, units: &[ControlUnit], view: u32) -> io::Result<()> {
    for (name, unit) in units.iter().enumerate() {
        show_unit(rt, name, unit, view)?;
    }
    Ok(())
}

// Prints what a unit's own action came to.
fn show_action(rt: &impl Print, what: &str, did: Result<Sends, UnitFault>) -> io::Result<()> {
    match did {
        Ok(_) => println!(rt; "{what}: done"),
        Err(fault) => println!(rt; "{what}: {}", fault.code()),
    }
}

// Unit 0 leads view 0 and puts; units 0 to 2 hear the put, the others do not.
pub fn show_units(rt: &impl Print, passed: &Passed<'_>, ticket: Writing) -> io::Result<()> {
    // written out: made by `from_fn`, the units are filled with nothing first and then moved
    let mut units = [
        ControlUnit::fresh(),
        ControlUnit::fresh(),
        ControlUnit::fresh(),
        ControlUnit::fresh(),
    ];
    show_action(rt, "unit 1 puts in view 0", units[1].put(passed, 1, ticket))?;
    show_action(rt, "unit 0 puts in view 0", units[0].put(passed, 0, ticket))?;
    show_action(rt, "unit 0 puts again", units[0].put(passed, 0, ticket))?;
    give(&mut units[..3], passed, 0, Letter::Put { view: 0, ticket });
    show_all(rt, &units, 0)?;
    println!(rt; "the rows of units 0, 1 and 2 go round twice")?;
    give_rows(&mut units, passed, 0);
    give_rows(&mut units, passed, 0);
    show_all(rt, &units, 0)?;
    show_action(rt, "unit 0 raises to view 8", units[0].raise(0, 8))?;
    show_action(rt, "unit 0 raises to view 1", units[0].raise(0, 1))
}
