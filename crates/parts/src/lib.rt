// What an accepted input does to the bytes that its caller lends: its effect, and its reports.
#![tactic(auto)]

pub mod apply;
pub mod report;
