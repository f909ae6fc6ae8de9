// The view timer of a party runs out, over tables that are known to fit.
#![tactic(auto)]

pub mod timeouts;
