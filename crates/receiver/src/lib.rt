// The receiver: packets out of a stream of bytes.
#![tactic(auto)]

pub mod answer;
pub mod fault;
mod held;
mod judge;
pub mod law;
pub mod receiver;

// The bytes of the longest packet. A buffer has to have room for as many.
pub const LONGEST: usize = 263;
