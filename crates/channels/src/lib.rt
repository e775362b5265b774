// Lists of channels.
#![tactic(auto)]

pub mod entry;
pub mod layout;
pub mod list;
