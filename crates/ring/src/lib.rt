#![tactic(auto)]

pub mod delivery;
pub mod lookup;
pub mod losing;
pub mod sending;
pub mod shown;
pub mod timing;
