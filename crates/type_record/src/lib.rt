// The type record: reading it, and refusal 1.
#![tactic(auto)]

pub mod check_types;
pub mod kinds;
pub mod record;
pub mod types;
