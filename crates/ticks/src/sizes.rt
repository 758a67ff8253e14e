// How many wafers and times there are, and how long a time may be. A tick is 1/1024 of a second.
pub const WAFERS: usize = 25;

// process and handling
pub const WAFER_TIMES: usize = 2;

pub const SECOND_TICKS: u64 = 1024;

// 1,048,576 seconds
pub const TICKS_END: u64 = 1048576 * SECOND_TICKS;
