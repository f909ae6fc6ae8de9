#![tactic(auto)]

pub mod counts;
pub mod examples;
