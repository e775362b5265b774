// Examples of messages, run.
#![tactic(auto)]

#[cfg(test)]
mod lists_tests;
#[cfg(test)]
mod table_tests;
