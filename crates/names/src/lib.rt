// Request P4: the check that the name of an input goes through.
#![tactic(auto)]

pub mod check;
