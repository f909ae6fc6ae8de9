// Who is of the ring, and whether its wire has room for a step.
#![tactic(auto)]

pub mod members;
