// Whether a tableau has an inversion: what leaves a move on it undefined.
#![tactic(auto)]

pub mod scan;
