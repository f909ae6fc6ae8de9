#![tactic(auto)]

pub mod call;
pub mod obeying;
pub mod shift;
