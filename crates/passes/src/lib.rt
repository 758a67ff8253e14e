// Passes over the bytes that a caller lends: zeros and same names, bytes in their bounds, and names that differ.
#![tactic(auto)]

pub mod bytes;
pub mod lanes;
pub mod names;
