// The definitions that every contract cites stand in specs/; there is no code here.
#![tactic(auto)]
