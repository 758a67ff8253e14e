// Request P7: prediction of ready to unload.
#![tactic(auto)]

pub mod input;
pub mod prediction;
