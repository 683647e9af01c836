// States: one tree of places per local, in preorder, by value or in a lent share.
#![tactic(auto)]

pub mod check_state;
pub mod edit;
pub mod kids;
pub mod nodes;
pub mod share;
