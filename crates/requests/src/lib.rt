#![tactic(auto)]

pub mod requests;
