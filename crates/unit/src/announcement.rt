// An announcement.
use rows::Rule;
use ticket::Writing;

// What a unit announced: the ticket, the view of the row that made it, and the least rule that was met. It is made once.
#[derive(Clone, Copy, PartialEq, Eq, Debug)]
pub struct Announcement {
    pub ticket: Writing,
    pub view: u32,
    pub rule: Rule,
}
