// A tool as the bytes that its caller lends.
#![tactic(auto)]

pub mod layout;
pub mod read;
pub mod report;
pub mod write;
