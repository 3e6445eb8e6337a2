// Lines of text: read from an input, their words read as numbers and as a set-up, and an answer put into one.
#![tactic(auto)]

pub mod answer;
pub mod input;
pub mod setups;
pub mod text;
