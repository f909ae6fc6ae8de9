#![tactic(auto)]

pub mod kind;
pub mod message;
pub mod range;
