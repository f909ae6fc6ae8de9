// Reading and writing the rows: one row, what a message leaves in it, and what a new view takes away.
#![tactic(auto)]

pub mod clear;
pub mod entries;
pub mod notes;
