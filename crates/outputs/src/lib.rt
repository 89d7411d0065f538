// The whole output of the program for its whole input, as a function on slices.
#![tactic(auto)]

pub mod answer;
mod printing;
