// Request P3: what the text of S3F17 asks of the tool.
#![tactic(auto)]

pub mod parts;
pub mod request;
pub mod text;
