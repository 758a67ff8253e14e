// Request P1 as code: expected maps in the bytes, the amended rows, and the step of a tool that is known to be sound.
#![tactic(auto)]

pub mod amended;
pub mod kept;
pub mod layout;
pub mod step;
