#![tactic(auto)]

pub mod bounds;
pub mod liars;
pub mod refusal;
pub mod ring;
pub mod tables;
