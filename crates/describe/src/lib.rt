// What the programs share: bytes and changes in plain words, the end of a shift, blank tables, a sheet's plan.
#![tactic(auto)]

pub mod blank;
pub mod end;
pub mod hexadecimal;
pub mod plan;
pub mod record;
pub mod steps;
