// The steps of the week. Unit 3 is false and keeps plans by name alone: it says another ticket.
use std::fmt;

// A day of the week.
#[derive(Clone, Copy, Debug)]
pub enum Day {
    Monday,
    Tuesday,
    Wednesday,
    Thursday,
    Friday,
}

impl fmt::Display for Day {
    fn fmt<W: fmt::Write>(&self, f: &mut fmt::Formatter<W>) -> fmt::Result {
        write!(f, "{self:?}")
    }
}

// What is done: the order or another ticket is put, the packets at the places from one up to another are delivered,
// a view is raised, a unit repeats, a packet is lost, a row or a report is forged, a choice is shown.
// Steps are values, so that one list of them serves every wire and every kind of ticket.
#[derive(Clone, Copy)]
pub enum Step {
    On(Day),
    PutOrder { unit: u32 },
    PutOther { unit: u32 },
    Deliver { unit: u32, from: u32, to: u32 },
    Raise { unit: u32, view: u32 },
    Repeat { unit: u32 },
    Lose { unit: u32, place: u32 },
    ForgeRow { sender: u32, to: u32 },
    ForgeReport { sender: u32, to: u32 },
    Choice { unit: u32, quorum: u32 },
}

pub const WEEK: [Step; 47] = [
    Step::On(Day::Monday),
    Step::PutOrder { unit: 1 },
    Step::PutOrder { unit: 0 },
    Step::PutOrder { unit: 0 },
    Step::PutOrder { unit: 3 },
    Step::Deliver {
        unit: 0,
        from: 0,
        to: 1,
    },
    Step::Deliver {
        unit: 1,
        from: 0,
        to: 1,
    },
    Step::Deliver {
        unit: 1,
        from: 0,
        to: 1,
    },
    Step::Lose { unit: 2, place: 0 },
    Step::Deliver {
        unit: 3,
        from: 0,
        to: 1,
    },
    Step::On(Day::Tuesday),
    Step::ForgeRow { sender: 3, to: 0 },
    Step::ForgeRow { sender: 3, to: 1 },
    Step::ForgeRow { sender: 3, to: 2 },
    Step::ForgeRow { sender: 2, to: 0 },
    Step::ForgeRow { sender: 3, to: 4 },
    Step::Deliver {
        unit: 0,
        from: 1,
        to: 4,
    },
    Step::Deliver {
        unit: 1,
        from: 1,
        to: 4,
    },
    Step::Deliver {
        unit: 2,
        from: 0,
        to: 3,
    },
    Step::Deliver {
        unit: 0,
        from: 9,
        to: 10,
    },
    Step::On(Day::Wednesday),
    Step::Raise { unit: 0, view: 1 },
    Step::Raise { unit: 1, view: 1 },
    Step::Raise { unit: 2, view: 1 },
    Step::Raise { unit: 2, view: 8 },
    Step::PutOther { unit: 1 },
    Step::ForgeReport { sender: 3, to: 1 },
    Step::Deliver {
        unit: 1,
        from: 4,
        to: 7,
    },
    Step::Choice { unit: 1, quorum: 1 },
    Step::PutOther { unit: 1 },
    Step::Deliver {
        unit: 1,
        from: 7,
        to: 8,
    },
    Step::Choice { unit: 1, quorum: 0 },
    Step::Choice { unit: 1, quorum: 2 },
    Step::Choice { unit: 1, quorum: 9 },
    Step::On(Day::Thursday),
    Step::Deliver {
        unit: 0,
        from: 7,
        to: 8,
    },
    Step::Deliver {
        unit: 0,
        from: 4,
        to: 8,
    },
    Step::Deliver {
        unit: 1,
        from: 8,
        to: 9,
    },
    Step::Deliver {
        unit: 2,
        from: 3,
        to: 7,
    },
    Step::Deliver {
        unit: 0,
        from: 8,
        to: 11,
    },
    Step::Deliver {
        unit: 1,
        from: 9,
        to: 12,
    },
    Step::Deliver {
        unit: 2,
        from: 7,
        to: 10,
    },
    Step::On(Day::Friday),
    Step::Deliver {
        unit: 0,
        from: 11,
        to: 14,
    },
    Step::Deliver {
        unit: 1,
        from: 12,
        to: 15,
    },
    Step::Deliver {
        unit: 2,
        from: 10,
        to: 13,
    },
    Step::Repeat { unit: 0 },
];
