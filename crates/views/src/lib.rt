#![tactic(auto)]

pub mod aborts;
pub mod entry;
pub mod start;
