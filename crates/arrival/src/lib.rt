// Arrivals at join points: what a run keeps for each block, and what a state that arrives changes of it.
#![tactic(auto)]

pub mod arrive;
pub mod jump;
pub mod meet;
pub mod memory;
