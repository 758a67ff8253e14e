// Request P8: the times of wafers, whole multiples of 1/1024 of a second, so that f64 additions never round.
#![tactic(auto)]

pub mod seconds;
pub mod sizes;
pub mod time;
pub mod wafers;
