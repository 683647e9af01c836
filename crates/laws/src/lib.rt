// The theorems about the definitions of model stand in specs/; there is no code here.
#![tactic(auto)]
