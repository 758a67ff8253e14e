// The inputs that say something of a carrier's prediction, or bring a clock: 6 and 21, and 31 to 34.
// They stay numbers, as C hands any u32: document 02's numbers are its rows' names.
pub const CANCEL_CARRIER: u32 = 6;

pub const ACCESS_START: u32 = 21;

pub const CLOCK: u32 = 31;

pub const PREDICTED_TIME: u32 = 32;

pub const ESTIMATE: u32 = 33;

pub const NO_PREDICTION: u32 = 34;
