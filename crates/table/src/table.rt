// The caller's table.
use crate::quorum::Quorum;

// A table as the caller lists it, not yet checked: how many units, the fault sets, the quorums.
#[derive(Clone, Copy)]
pub struct Table<'a> {
    pub units: u32,
    pub faults: &'a [u16],
    pub quorums: &'a [Quorum],
}
