// The tally of a C line's items, kept while they are read one by one, and the checks 1, 2, 4, 19 and 20 by it. Every public function takes whatever it is given.
#![tactic(auto)]

pub mod checks;
pub mod tables;
pub mod tally;
