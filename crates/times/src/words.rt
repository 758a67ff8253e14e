// The states of model 8, and the longest setting time and timeout.
pub const DISABLED: u8 = 1;

pub const WAITING_FOR_CARRIER: u8 = 2;

pub const WAITING_FOR_PREDICTION: u8 = 3;

pub const PREDICTED: u8 = 4;

pub const ABORTED: u8 = 5;

pub const COMPLETED: u8 = 6;

// one day, in seconds
pub const SPAN_MOST: u32 = 86400;

// the first number that is no time: clock, Tp and Te are below it
pub const TIME_END: u64 = 4294967296;
