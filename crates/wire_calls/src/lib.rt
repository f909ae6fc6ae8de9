// The calls that touch the wire alone.
#![tactic(auto)]

pub mod losing;
pub mod sending;
