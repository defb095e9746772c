// The faults of a table.
ghost use Rattle.table.specs.Faults.{table_says};

use base::{Fault, FaultCode, Layer};
use std::fmt;

// What a table fails first. A case per number, 1 to 9, with its place inside.
#[derive(Clone, Copy, PartialEq, Eq, Debug)]
pub enum TableFault {
    // 1: there are not 1 to 16 units.
    Units,
    // 2: there are not 1 to 32 fault sets.
    FaultSetCount,
    // 3: this fault set names a unit that is not there.
    FaultSet(usize),
    // 4: there are not 1 to 32 quorums.
    QuorumCount,
    // 5: this quorum names no unit, or one that is not there, or its class is not 1 to 3.
    Entry(usize),
    // 6: this quorum stands again later.
    Repeated(usize),
    // 7: this quorum and some quorum share no basic set.
    FirstProperty(usize),
    // 8: this class 1 quorum, some class 1 quorum and some quorum share no large set.
    SecondProperty(usize),
    // 9: this class 1 or 2 quorum and some quorum fail the third property.
    ThirdProperty(usize),
}

impl Fault for TableFault {
    ghost says = { table_says };

    fn code(self) -> FaultCode {
        let (number, place) = match self {
            TableFault::Units => (1, 0),
            TableFault::FaultSetCount => (2, 0),
            TableFault::FaultSet(place) => (3, place),
            TableFault::QuorumCount => (4, 0),
            TableFault::Entry(place) => (5, place),
            TableFault::Repeated(place) => (6, place),
            TableFault::FirstProperty(place) => (7, place),
            TableFault::SecondProperty(place) => (8, place),
            TableFault::ThirdProperty(place) => (9, place),
        };
        FaultCode {
            number,
            layer: Layer::Table,
            place,
        }
    }
}

impl fmt::Display for TableFault {
    fn fmt<W: fmt::Write>(&self, f: &mut fmt::Formatter<W>) -> fmt::Result {
        f.write_str(match self {
            TableFault::Units => "there are not 1 to 16 units",
            TableFault::FaultSetCount => "there are not 1 to 32 fault sets",
            TableFault::FaultSet(_) => "a fault set names a unit that is not there",
            TableFault::QuorumCount => "there are not 1 to 32 quorums",
            TableFault::Entry(_) =>
                "a quorum names no unit, or one that is not there, or has no class 1 to 3",
            TableFault::Repeated(_) => "two quorums are the same set",
            TableFault::FirstProperty(_) => "two quorums share no basic set",
            TableFault::SecondProperty(_) => "two class 1 quorums and a quorum share no large set",
            TableFault::ThirdProperty(_) =>
                "a class 1 or 2 quorum and a quorum share no large set, and class 1 does not help",
        })
    }
}
