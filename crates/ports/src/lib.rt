// The rows about a port: carriers announced for it, its service, and what is loaded there or unloaded.
#![tactic(auto)]

pub mod booking;
pub mod service;
pub mod transfer;
