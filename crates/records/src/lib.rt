// What a port and a carrier are, and the record that follows.
#![tactic(auto)]

pub mod carrier;
pub mod fill;
pub mod map;
pub mod name;
pub mod port;
pub mod refusal;
pub mod sizes;
pub mod table;
pub mod words;
