// Examples of checks and packets.
#![tactic(auto)]

#[cfg(test)]
mod checks_tests;
#[cfg(test)]
mod packet_tests;
