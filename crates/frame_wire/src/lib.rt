#![tactic(auto)]

pub mod buffer;
