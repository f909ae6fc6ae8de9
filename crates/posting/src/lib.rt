#![tactic(auto)]

pub mod audience;
pub mod letters;
pub mod post;
pub mod sends;
