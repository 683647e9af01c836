// What the items of a function record say: places, join points, matches.
#![tactic(auto)]

pub mod function;
pub mod join_points;
pub mod matching;
pub mod place;
