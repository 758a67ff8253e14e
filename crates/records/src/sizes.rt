// How many there are of each, as document 01 has it.

// bytes of a name, and the least and the greatest of them
pub const NAME_BYTES: usize = 16;

pub const NAME_BYTE_LEAST: u8 = 0x21;

pub const NAME_BYTE_GREATEST: u8 = 0x7E;

// codes of a slot map, and the greatest
pub const SLOTS: usize = 25;

pub const CODE_GREATEST: u8 = 5;

// a tool's ports and buffer places; carriers expected at once; records: 16 expected, 16 in the buffer, 4 at ports
pub const PORTS: usize = 4;

pub const PLACES: usize = 16;

pub const EXPECTED_MOST: usize = 16;

pub const RECORDS: usize = EXPECTED_MOST + PLACES + PORTS;

// reports of one input
pub const REPORTS: usize = 10;
