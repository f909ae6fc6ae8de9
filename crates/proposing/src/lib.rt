#![tactic(auto)]

pub mod proposals;
pub mod suggests;
