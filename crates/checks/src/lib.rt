// The checks that a message ends in: what a check is, and the two that are supplied.
#![tactic(auto)]

pub mod check;
pub mod crc16;
pub mod xor;
