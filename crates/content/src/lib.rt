// What messages hold, by their type and direction.
#![tactic(auto)]

pub mod message;
pub mod read;
pub mod row;
