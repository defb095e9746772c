// What is shown of an announcement.
use rows::Rule;

// The announced ticket, the view of the row that made the announcement, and the least rule that was met.
#[derive(Clone, Copy, PartialEq, Eq, Debug)]
pub struct Shown<T> {
    pub ticket: T,
    pub view: u32,
    pub rule: Rule,
}
