// Both wires, driven through the same calls.
#![tactic(auto)]

#[cfg(test)]
mod drive;
#[cfg(test)]
mod tests;
