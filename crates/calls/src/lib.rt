// The theorems about the calls on states stand in specs/; there is no code here.
#![tactic(auto)]
