// Request P1, slot maps the tool can judge: what it adds to document 01's records.
#![tactic(auto)]

pub mod codes;
