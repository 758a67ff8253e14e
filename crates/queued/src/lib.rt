// Request P5 as code: the rows that it changes and adds, and the step of a tool that is known to be sound.
#![tactic(auto)]

pub mod below;
pub mod cancelled;
pub mod outs;
pub mod requested;
pub mod step;
