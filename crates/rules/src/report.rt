// What an input answers.
use crate::tool::Tool;
use records::name::Name;
use records::sizes::REPORTS;

// The subject is a port in models 1 to 4 and a name in models 5 to 7; the other is zero.
#[repr(C)]
#[derive(Clone, Copy)]
pub struct Report {
    pub model: u8,
    pub port: u8,
    pub name: Name,
    pub old: u8,
    pub new: u8,
}

// How many there are stands beside the table: C lends it whole.
#[repr(C)]
#[derive(Clone, Copy)]
pub struct Reports {
    pub count: u8,
    pub items: [Report; REPORTS],
}

// The answer is document 01's number: `outcome` and the theorems on it speak of it.
#[repr(C)]
#[derive(Clone, Copy)]
pub struct Outcome {
    pub tool: Tool,
    pub answer: u8,
    pub reports: Reports,
}
