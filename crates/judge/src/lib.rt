// Request P14: a log judged by document 01's machine, in one pass, with one tool and one report list beside it.
#![tactic(auto)]

pub mod entry;
pub mod log;
pub mod verdict;
