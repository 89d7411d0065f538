// Lines of a word in one call, each of the word's tableau: they stand for its class.
#![tactic(auto)]

pub mod runs;
pub mod tableau;
