// Bytes in a buffer, and numbers as bytes.
#![tactic(auto)]

pub mod bytes;
