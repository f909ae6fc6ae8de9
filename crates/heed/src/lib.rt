#![tactic(auto)]

pub mod heed;
