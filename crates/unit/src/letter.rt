// What units say to each other, and what goes out.
use base::VIEW_COUNT;
use rows::Row;
use ticket::Writing;

// A message to a unit. A report has a row or none for each view; those at and above its view are none.
// Packets have an enum of their own, whose report is bytes: units know no packets and packets no units.
#[derive(Clone, Copy)]
pub enum Letter<'a> {
    Put {
        view: u32,
        ticket: Writing,
    },
    Row {
        view: u32,
        row: Row,
    },
    Report {
        view: u32,
        rows: &'a [Option<Row>; VIEW_COUNT],
    },
}

// What an accepted call sends to all, in this order and as far as it exists: the put, the own row and the report of the unit's view.
// Three booleans, since any of them can go out without the others.
#[derive(Clone, Copy, PartialEq, Eq, Debug)]
pub struct Sends {
    pub put: bool,
    pub row: bool,
    pub report: bool,
}

impl Sends {
    pub(crate) const NOTHING: Sends = Sends {
        put: false,
        row: false,
        report: false,
    };

    pub(crate) const PUT: Sends = Sends {
        put: true,
        ..Sends::NOTHING
    };

    pub(crate) const ROW: Sends = Sends {
        row: true,
        ..Sends::NOTHING
    };

    pub(crate) const REPORT: Sends = Sends {
        report: true,
        ..Sends::NOTHING
    };
}
