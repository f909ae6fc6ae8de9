#![tactic(auto)]

pub mod block_cases;
pub mod case;
pub mod order_cases;
#[cfg(test)]
mod tests;
