#![tactic(auto)]

pub mod dones;
pub mod votes;
