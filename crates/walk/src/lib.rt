// The walk along a place, and what is done with it, on states that pass.
#![tactic(auto)]

pub mod along;
pub mod apply;
pub mod step;
