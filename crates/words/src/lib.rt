// One word: how often each letter stands in it, its junction set and its rows. Every public function takes whatever it is given; an operation answers a
// result or the exact refusal.
#![tactic(auto)]

pub mod junctions;
pub mod tables;
