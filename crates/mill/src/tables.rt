// The mill's table and some others, checked.
ghost use Rattle.std.specs.Prelude.{◌≡◌};
ghost use Rattle.table.specs.Means.{means};
ghost use Rattle.mill.specs.Mill.{mill_table};

use base::Fault;
use std::io;
use table::{Passed, Quorum, Table};

// Four units, of which any one may be false. All four are the quorum of class 1, any three a quorum of class 2.
const MILL: Table<'static> = Table {
    units: 4,
    faults: &[1, 2, 4, 8],
    quorums: &[
        Quorum { set: 15, class: 1 },
        Quorum { set: 7, class: 2 },
        Quorum { set: 11, class: 2 },
        Quorum { set: 13, class: 2 },
        Quorum { set: 14, class: 2 },
    ],
};

// Units 0 and 1 share a cabinet and may be false together; so may any other one of five.
const ONE_CABINET: Table<'static> = Table {
    units: 5,
    faults: &[3, 4, 8, 16],
    quorums: &[
        Quorum { set: 31, class: 1 },
        Quorum { set: 15, class: 2 },
        Quorum { set: 23, class: 2 },
        Quorum { set: 27, class: 2 },
        Quorum { set: 28, class: 2 },
    ],
};

// Tables that pass and tables that fail, by their names.
const TABLES: [(&str, Table<'static>); 5] = [
    ("the mill's table", MILL),
    (
        "with three units as class 1",
        Table {
            quorums: &[
                Quorum { set: 15, class: 1 },
                Quorum { set: 7, class: 1 },
                Quorum { set: 11, class: 2 },
                Quorum { set: 13, class: 2 },
                Quorum { set: 14, class: 2 },
            ],
            ..MILL
        },
    ),
    (
        "three units, two to a quorum",
        Table {
            units: 3,
            faults: &[1, 2, 4],
            quorums: &[
                Quorum { set: 3, class: 3 },
                Quorum { set: 5, class: 3 },
                Quorum { set: 6, class: 3 },
            ],
        },
    ),
    ("two units in one cabinet", ONE_CABINET),
    (
        "the same without the whole shed",
        Table {
            quorums: &[
                Quorum { set: 15, class: 2 },
                Quorum { set: 23, class: 2 },
                Quorum { set: 27, class: 2 },
                Quorum { set: 28, class: 2 },
            ],
            ..ONE_CABINET
        },
    ),
];

// The mill's table. It passes.
pub fn mill_table() -> Passed<'static>
    ensures { means result ≡ mill_table }
{
    MILL.pass().unwrap()
}

// Checks one table and prints the verdict.
fn show(rt: &impl Print, name: &str, table: Table<'_>) -> io::Result<()> {
    let Table {
        units,
        faults,
        quorums,
    } = table;
    print!(rt;
        "{name}: {units} units, {} fault sets, {} quorums: ",
        faults.len(),
        quorums.len()
    )?;
    match table.pass() {
        Ok(_) => println!(rt; "passes"),
        Err(fault) => println!(rt; "{}: {fault}", fault.code()),
    }
}

// Passes a table and then changes it: while the passed reading is held the fault sets stay lent.
fn pass_then_change(faults: &mut [u16; 4]) -> u32 {
    let table = Table { faults, ..MILL };
    let units = table.pass().map_or(0, |passed| passed.units());
    faults[0] = 3;
    units
}

// Checks each of the tables.
pub fn check_tables(rt: &impl Print) -> io::Result<()> {
    for (name, table) in TABLES {
        show(rt, name, table)?;
    }
    Ok(())
}

// A table that is let go may be changed, and is checked anew.
pub fn change_table(rt: &impl Print) -> io::Result<()> {
    let mut faults = [1, 2, 4, 8];
    let units = pass_then_change(&mut faults);
    println!(rt; "passed with {units} units, then changed:")?;
    show(
        rt,
        "the changed table",
        Table {
            faults: &faults,
            ..MILL
        },
    )
}
