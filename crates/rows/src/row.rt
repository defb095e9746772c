// A row.
use ticket::Writing;

// What a unit says of one view: a ticket, the quorums it heard entire with it (bit p for place p), and the third mark.
#[derive(Clone, Copy, PartialEq, Eq, Debug)]
pub struct Row {
    pub ticket: Writing,
    pub set: u32,
    pub mark: bool,
}
