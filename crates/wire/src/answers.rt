// What the calls of a wire answer.

// A packet that was copied out: who posted it, and how many bytes it has.
#[derive(Clone, Copy, PartialEq, Eq, Debug)]
pub struct Found {
    pub sender: u32,
    pub length: usize,
}

// How many packets wait for a unit, and how many places it has free.
#[derive(Clone, Copy, PartialEq, Eq, Debug)]
pub struct Counts {
    pub waiting: u32,
    pub free: u32,
}

// How many posts of a send to all were laid, and how many were lost for want of a place.
#[derive(Clone, Copy, PartialEq, Eq, Debug)]
pub struct Tally {
    pub laid: u32,
    pub lost: u32,
}
