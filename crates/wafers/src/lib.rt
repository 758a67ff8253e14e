// Request P8: where Tp comes from. Input 35, and the step of a tool that is known to be sound.
#![tactic(auto)]

pub mod input;
pub mod step;
