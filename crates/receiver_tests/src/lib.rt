// Examples for the lines and the receiver.
#![tactic(auto)]

#[cfg(test)]
mod receiving;
#[cfg(test)]
mod taking;
