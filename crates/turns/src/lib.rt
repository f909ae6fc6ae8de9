#![tactic(auto)]

pub mod handling;
mod lending;
pub mod starting;
pub mod timing;
