// Request P13: the text of S3F18 for an answer, written into room that the caller lends.
#![tactic(auto)]

pub mod reply;
pub mod words;
pub mod writer;
