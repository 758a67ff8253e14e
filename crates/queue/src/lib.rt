// Request P5, a queue for CarrierOut: what it adds to the tool's state.
#![tactic(auto)]

pub mod request;
