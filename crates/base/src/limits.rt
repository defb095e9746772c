// The limits, each stated once for the code; specs/Limits.antt states them for the contracts.

// Units of a shed.
pub const UNITS: u32 = 16;

// Fault sets of a table.
pub const FAULT_SETS: usize = 32;

// Quorums of a table.
pub const QUORUMS: usize = 32;

// Views of a unit, from 0.
pub const VIEWS: u32 = 8;

// The same two as the lengths of lists, with a place for each unit and for each view.
pub const UNIT_COUNT: usize = UNITS as usize;

pub const VIEW_COUNT: usize = VIEWS as usize;

// Bytes of the longest packet: a report for the last view with every entry present.
pub const PACKET_BYTES: usize = 208;
