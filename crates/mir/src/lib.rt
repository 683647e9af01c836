// The function record: reading it, and refusal 2.
#![tactic(auto)]

pub mod check_function;
pub mod function;
pub mod items;
pub mod split;
