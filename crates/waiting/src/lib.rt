// Request P2: is anyone waiting? The first carrier of a table that waits for the host, and how many records were read to know.
#![tactic(auto)]

pub mod found;
pub mod table;
