// The theorems on moved types stand in specs/; there is no code here.
#![tactic(auto)]
