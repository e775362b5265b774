// What every layer shares: numbers written as bytes, and how a refusal is told.
#![tactic(auto)]

pub mod bits;
pub mod number;
pub mod refusal;
