// Request P7: times and predictions in the bytes of a tool.
#![tactic(auto)]

pub mod layout;
pub mod read;
pub mod sound;
pub mod words;
pub mod write;
