// The door of the whole tool: names are shortened once, before every row.
#![tactic(auto)]

pub mod door;
