// Request P14: the file of a log, read in place.
#![tactic(auto)]

pub mod bytes;
pub mod head;
pub mod shown;
pub mod sizes;
