// Request P3: attribute values, held as what they were sent as.
#![tactic(auto)]

pub mod value;
