// The parts of a run sheet's line: cuts at a byte, numbers, the set of faulty parties.
#![tactic(auto)]

pub mod block_text;
pub mod cuts;
pub mod fault;
pub mod number;
pub mod order_text;
pub mod parties;
pub mod texts;
pub mod value_text;
