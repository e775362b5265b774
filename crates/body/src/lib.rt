// The fields of message bodies, read one after another.
#![tactic(auto)]

pub mod cursor;
pub mod fault;
pub mod held;
pub mod tail;
pub mod take;
