// The theorems on the function record stand in specs/; there is no code here.
#![tactic(auto)]
