// The size of a class, its word with a number, and the number of a word, for at most 20 cells or letters (document 02, N4). Every public function takes
// whatever it is given, and answers a result or the exact refusal.
#![tactic(auto)]

pub mod checks;
pub mod classes;
pub mod ribbon;
