// Writing the record: one field moves, or a view is entered.
#![tactic(auto)]

pub mod fields;
