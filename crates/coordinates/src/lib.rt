// A cell's letter, row and column, over the slices of a tableau. Every public function takes whatever it is given.
#![tactic(auto)]

pub mod cells;
