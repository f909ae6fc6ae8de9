// A ring is set up: its plan is inspected, and every honest party enters view 1.
#![tactic(auto)]

pub mod entering;
pub mod inspection;
pub mod plan;
pub mod setup;
