// Where a letter stands in a word. Every public function takes whatever it is given.
#![tactic(auto)]

pub mod places;
