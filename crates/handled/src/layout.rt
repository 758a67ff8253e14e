// Where the alarms stand in the second block: for each port whether its alarm is on, and whether a pod is held there.
use records::sizes::PORTS;
use times::layout::PREDICTIONS_END;

pub const ALARMS_START: usize = PREDICTIONS_END;

// from an alarm's first byte on
pub const HELD_OFFSET: usize = 1;

pub const ALARM_BYTES: usize = 2;

pub const ALARMS_END: usize = ALARMS_START + ALARM_BYTES * PORTS;
