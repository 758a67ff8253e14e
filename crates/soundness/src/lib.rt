// Whether the bytes that a caller lends hold a sound tool.
#![tactic(auto)]

pub mod seats;
pub mod whole;
