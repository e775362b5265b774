// Tests of texts and values, tabled.
#![tactic(auto)]

mod characters;
mod values;
