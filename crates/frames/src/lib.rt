#![tactic(auto)]

pub mod codec;
pub mod fault;
pub mod figures;
