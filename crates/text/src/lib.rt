// What `ghosts` reads and prints: decimal words in, a line per statement out.
#![tactic(auto)]

pub mod print;
pub mod scan;
pub mod split;
