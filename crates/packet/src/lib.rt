// Packets of the wire: a header, a message, and the message's check.
#![tactic(auto)]

pub mod fault;
mod flags;
pub mod header;
pub mod law;
pub mod measure;
pub mod read;
