#![tactic(auto)]

pub mod fault;
pub mod fixed;
pub mod gap;
pub mod wire;
