// Lines: where the bytes come from.
#![tactic(auto)]

pub mod hex;
pub mod line;
pub mod memory;
