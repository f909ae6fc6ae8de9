// The lines of a run sheet: a cursor over them, their tokens, and readers of one line each.
#![tactic(auto)]

pub mod call;
pub mod cursor;
pub mod fault;
pub mod kind;
pub mod readers;
pub mod take;
pub mod token;
