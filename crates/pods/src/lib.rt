// The rows by which a pod is verified: its name read, and the word of the host.
#![tactic(auto)]

pub mod reading;
pub mod verdict;
