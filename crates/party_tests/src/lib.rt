// Tests of a party's step, by table: each kind of message, handed twice, at a party alone in its ring.
#![tactic(auto)]

#[cfg(test)]
mod tests;
