// The 26 inputs of document 01 by number: what each is refused for, and its effect.
#![tactic(auto)]

pub mod numbered;
