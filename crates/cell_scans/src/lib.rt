// Single cells of a line, read by the grammar alone. Every public function takes whatever place it is given.
#![tactic(auto)]

pub mod cells;
