// Where the queue stands in the second block.
use queue::request::QUEUE;

// a request's fields, from its first byte on: its name comes first
pub const REQUEST_PORT_OFFSET: usize = 16;

pub const STARTED_OFFSET: usize = 17;

pub const REQUEST_BYTES: usize = 18;

// how many are queued; the requests
pub const WAITING_OFFSET: usize = 900;

pub const QUEUE_START: usize = WAITING_OFFSET + 1;

pub const QUEUE_END: usize = QUEUE_START + REQUEST_BYTES * QUEUE;
