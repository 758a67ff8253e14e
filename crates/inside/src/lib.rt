// The rows about a pod that is verified: moved in and out of the buffer, opened, accessed.
#![tactic(auto)]

pub mod buffer;
pub mod opening;
