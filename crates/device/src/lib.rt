// Flags, and descriptions of devices.
#![tactic(auto)]

pub mod description;
pub mod flags;
pub mod held;
