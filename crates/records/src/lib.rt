// The laws of the records stand in specs/; there is no code here.
#![tactic(auto)]
