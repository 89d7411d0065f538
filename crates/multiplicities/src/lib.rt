// How often a letter stands in a word, and how often one up to it. Every public function takes whatever it is given.
#![tactic(auto)]

pub mod counts;
