// A quorum of a table.

// The units of a quorum as a mask, and its class 1, 2 or 3.
#[derive(Clone, Copy, PartialEq, Eq, Debug)]
pub struct Quorum {
    pub set: u16,
    pub class: u8,
}
