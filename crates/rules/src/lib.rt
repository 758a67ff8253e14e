// What the rules of document 01 speak of: a tool, what a row sees of it, what a row does, what is reported.
#![tactic(auto)]

pub mod input;
pub mod report;
pub mod row;
pub mod tool;
