// Request P3: SECS-II items as SEMI E5 lays them out, read in place.
#![tactic(auto)]

pub mod formats;
pub mod head;
pub mod reader;
pub mod walk;
