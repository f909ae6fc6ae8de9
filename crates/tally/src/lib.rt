// Counting the senders that back a claim, and the two thresholds.
#![tactic(auto)]

pub mod tally;
pub mod thresholds;
