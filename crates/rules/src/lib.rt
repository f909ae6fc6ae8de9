#![tactic(auto)]

pub mod facts;
pub mod figures;
pub mod thresholds;
