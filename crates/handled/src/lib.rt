// Request P9: hands on an AUTO port, in the bytes. The step of a tool that is known to be sound.
#![tactic(auto)]

pub mod alarm;
pub mod here;
pub mod layout;
pub mod loads;
pub mod passed;
pub mod settle;
pub mod sound;
pub mod starts;
pub mod step;
pub mod words;
