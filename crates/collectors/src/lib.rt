// The collectors over trees in preorder arrays: the statements that lead from one tree to another, that open a folded one, and that
// a return owes, recorded as they are found.
#![tactic(auto)]

pub mod folds;
pub mod got;
pub mod pairs;
pub mod path;
pub mod unfolds;
