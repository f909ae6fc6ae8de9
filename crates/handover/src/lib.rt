// A message is brought to its receiver, over tables that are known to fit.
#![tactic(auto)]

pub mod delivery;
