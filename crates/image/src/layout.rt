// Where each thing stands in the bytes.
use records::sizes::*;

// a port's fields, from its first byte on
pub const TRANSFER_OFFSET: usize = 0;

pub const ACCESS_OFFSET: usize = 1;

pub const RESERVED_OFFSET: usize = 2;

pub const TIE_OFFSET: usize = 3;

pub const MOVEMENT_OFFSET: usize = 19;

pub const POD_OFFSET: usize = 20;

pub const TAG_OFFSET: usize = 21;

pub const PORT_BYTES: usize = 22;

// a carrier's
pub const NAME_OFFSET: usize = 0;

pub const PLACE_OFFSET: usize = 16;

pub const SPOT_OFFSET: usize = 17;

pub const PORT_OFFSET: usize = 18;

pub const OPENED_OFFSET: usize = 19;

pub const CANCELLED_OFFSET: usize = 20;

pub const CAMEOUT_OFFSET: usize = 21;

pub const MAP_OFFSET: usize = 22;

pub const ID_OFFSET: usize = 47;

pub const SLOT_OFFSET: usize = 48;

pub const ACCESSING_OFFSET: usize = 49;

pub const CARRIER_BYTES: usize = 50;

// a tool: how many ports, buffer places and records, and the most of each; its ports; its records
pub const USED_OFFSET: usize = 0;

pub const PLACES_OFFSET: usize = 1;

pub const COUNT_OFFSET: usize = 2;

pub const USED_MOST: u8 = PORTS as u8;

pub const PLACES_MOST: u8 = PLACES as u8;

pub const COUNT_MOST: u8 = RECORDS as u8;

pub const PORTS_START: usize = 3;

pub const ALL_PORTS_BYTES: usize = PORT_BYTES * PORTS;

pub const RECORDS_START: usize = PORTS_START + ALL_PORTS_BYTES;

pub const ALL_RECORDS_BYTES: usize = CARRIER_BYTES * RECORDS;

pub const TOOL_BYTES: usize = RECORDS_START + ALL_RECORDS_BYTES;

pub const LAST_RECORD_START: usize = TOOL_BYTES - CARRIER_BYTES;

// a report's fields: its subject is a port or a name
pub const MODEL_OFFSET: usize = 0;

pub const SUBJECT_PORT_OFFSET: usize = 1;

pub const SUBJECT_NAME_OFFSET: usize = 2;

pub const OLD_OFFSET: usize = 18;

pub const NEW_OFFSET: usize = 19;

pub const REPORT_BYTES: usize = 20;

// a report list: how many, and the most; the reports
pub const REPORTED_OFFSET: usize = 0;

pub const REPORTED_MOST: u8 = REPORTS as u8;

pub const REPORTS_START: usize = 1;

pub const REPORTS_BYTES: usize = REPORTS_START + REPORT_BYTES * REPORTS;
