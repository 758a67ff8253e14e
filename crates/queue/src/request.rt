// A CarrierOut that waits for its port, or is under way.
use records::name::Name;

// how many requests the queue holds
pub const QUEUE: usize = 16;

// The carrier's name, the port that it goes to, and whether it is started: 0, 1. `started` stays a byte, since C lends it: whether it is
// in range is tested by sound_line.
#[derive(Clone, Copy)]
pub struct Request {
    pub name: Name,
    pub port: u8,
    pub started: u8,
}
