// Messages of packets: the header, and the body by its type.
#![tactic(auto)]

pub mod frame;
pub mod header;
pub mod law;
mod opening;
pub mod read;
mod table;
