// Document 01's machine, in place: set-up, and one input at a time.
#![tactic(auto)]

pub mod setup;
pub mod step;
