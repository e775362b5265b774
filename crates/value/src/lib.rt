// Universal values: a header byte with a type, and the data of that type.
#![tactic(auto)]

pub mod example;
pub mod fault;
pub mod kind;
pub mod law;
mod moment;
pub mod read;
pub mod time;
pub mod universal;
