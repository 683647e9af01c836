// One block's own run: its items, and how its targets open the state.
#![tactic(auto)]

pub mod arms;
pub mod items;
pub mod tries;
