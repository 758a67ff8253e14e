// The whole tool, as every request that has landed leaves it: set-up, soundness, and one input at a time.
#![tactic(auto)]

pub mod layout;
pub mod whole;
