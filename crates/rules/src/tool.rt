// A tool: its ports, its buffer places, its carrier records in the order they were made.
use records::carrier::Carrier;
use records::port::Port;
use records::sizes::{PORTS, RECORDS};

// C lends a tool whole, so each number stands beside its table, and a state is any byte until it is found sound.
// used: how many ports; places: how many buffer places; count: how many records. Past these all is zero.
#[repr(C)]
#[derive(Clone, Copy)]
pub struct Tool {
    pub used: u8,
    pub places: u8,
    pub count: u8,
    pub ports: [Port; PORTS],
    pub carriers: [Carrier; RECORDS],
}

// What set-up gives. The answer is a number, as in `set_up`.
#[repr(C)]
#[derive(Clone, Copy)]
pub struct Setup {
    pub tool: Tool,
    pub answer: u8,
}
