// Cells taken out of a ribbon of at most 20 cells, whose letters and marks are the first of 20 bytes each: which cell goes first in the word with a number
// or in a word with a first letter, how many words come before, and what it leaves. Every public function takes whatever it is given.
#![tactic(auto)]

pub mod first;
pub mod removal;
