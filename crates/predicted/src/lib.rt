// Request P7 as code: what moves along, the inputs that bring a clock, and the step of a tool that is known to be sound.
#![tactic(auto)]

pub mod along;
pub mod moved;
pub mod others;
pub mod step;
pub mod timed;
