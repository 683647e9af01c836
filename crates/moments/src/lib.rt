// No code: how a contract speaks of what was lent (specs/Lent).
#![tactic(auto)]
