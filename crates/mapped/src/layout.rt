// Where each thing stands in the second block.
use records::sizes::*;

// the expected maps
pub const MAPS_START: usize = 0;

pub const MAPS_BYTES: usize = SLOTS * RECORDS;
