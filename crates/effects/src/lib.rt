// What rows ask of what they see, and the kinds of effect.
#![tactic(auto)]

pub mod ask;
