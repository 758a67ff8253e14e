// Request P9, hands on an AUTO port: what it adds to the tool's state.
#![tactic(auto)]

pub mod alarm;
