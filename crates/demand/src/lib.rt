// The theorems on a whole function stand in specs/; there is no code here.
#![tactic(auto)]
