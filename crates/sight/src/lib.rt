// What a row sees, from the bytes.
#![tactic(auto)]

pub mod look;
