// The theorems on the two passes over any states stand in specs/; there is no code here.
#![tactic(auto)]
