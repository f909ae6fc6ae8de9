#![tactic(auto)]

pub mod aborts;
pub mod lock;
pub mod suggests;
