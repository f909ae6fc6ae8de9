// What a party keeps: its record, a row for each sender, and where it stands.
#![tactic(auto)]

pub mod keys;
pub mod party;
pub mod record;
pub mod row;
pub mod seat;
pub mod vote;
