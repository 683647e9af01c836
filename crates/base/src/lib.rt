// What both crates of laws, laws and records, stand on is in specs/; there is no code here.
#![tactic(auto)]
