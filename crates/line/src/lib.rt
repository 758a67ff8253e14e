// Request P5: the queue for CarrierOut in the bytes of a tool.
#![tactic(auto)]

pub mod asked;
pub mod change;
pub mod find;
pub mod layout;
pub mod read;
pub mod ready;
pub mod sound;
pub mod write;
