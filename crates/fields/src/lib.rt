// Numbers and texts at the front of bytes.
#![tactic(auto)]

pub mod number;
pub mod part;
