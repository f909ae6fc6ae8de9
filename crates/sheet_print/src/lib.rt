// What a sheet says, as text: values, and a line for each part that was understood.
#![tactic(auto)]

pub mod report;
pub mod value_text;
