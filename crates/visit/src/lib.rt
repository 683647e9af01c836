// The visit of a block: what happens from its start until every way from it has come to a join point.
#![tactic(auto)]

pub mod block;
