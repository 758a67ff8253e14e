// Request P7 as code: model 8, what its transitions ask, and a prediction as an input writes it.
#![tactic(auto)]

pub mod facts;
pub mod model;
pub mod numbers;
pub mod written;
