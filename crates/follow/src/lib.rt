// Tables beside the records, which follow them.
#![tactic(auto)]

pub mod blocks;
pub mod table;
