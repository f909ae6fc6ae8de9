// The claims that senders back, each by what stands in their rows.
#![tactic(auto)]

pub mod keys;
pub mod votes;
