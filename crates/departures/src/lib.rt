// The departure of the oldest letter from a window over a stream of letters (document 02, N8). The arrival of a letter is insertion, in crate pairs.
#![tactic(auto)]

mod checks;
pub mod departure;
