// Request P3: the host bridge's messages, read and then stepped; request P13: and answered.
#![tactic(auto)]

pub mod bridge;
pub mod exchange;
