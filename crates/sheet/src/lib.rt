// A reader of run sheets: it reads a whole sheet and runs nothing.
#![tactic(auto)]

mod calls;
pub mod fault;
mod opening;
mod owns;
mod plan;
pub mod reader;
pub mod setup;
