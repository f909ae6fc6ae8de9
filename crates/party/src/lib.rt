#![tactic(auto)]

pub mod step;
