#![tactic(auto)]

pub mod block;
pub mod limits;
pub mod order;
pub mod parties;
pub mod rate;
pub mod value;
