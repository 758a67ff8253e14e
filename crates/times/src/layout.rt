// Where times and predictions stand in the second block.
use records::sizes::RECORDS;

// seconds, low byte first: the clock that was accepted last, and what set-up took
pub const SECONDS_BYTES: usize = 4;

pub const CLOCK_OFFSET: usize = 1189;

pub const SETTING_OFFSET: usize = CLOCK_OFFSET + SECONDS_BYTES;

pub const TIMEOUT_OFFSET: usize = SETTING_OFFSET + SECONDS_BYTES;

// a prediction's fields, from its first byte on
pub const STATE_OFFSET: usize = 0;

pub const KNOWN_OFFSET: usize = 1;

pub const ESTIMATED_OFFSET: usize = 2;

pub const TP_OFFSET: usize = 3;

pub const TE_OFFSET: usize = TP_OFFSET + SECONDS_BYTES;

pub const PREDICTION_BYTES: usize = TE_OFFSET + SECONDS_BYTES;

// the predictions
pub const PREDICTIONS_START: usize = TIMEOUT_OFFSET + SECONDS_BYTES;

pub const ALL_PREDICTIONS_BYTES: usize = PREDICTION_BYTES * RECORDS;

pub const PREDICTIONS_END: usize = PREDICTIONS_START + ALL_PREDICTIONS_BYTES;
