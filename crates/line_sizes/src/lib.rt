// How many bytes the lines of document 01, "Lines", and the fields of numbers in them have. Writers judge by them whether there is room for a line before
// its first byte is stored. Every public function takes whatever it is given.
#![tactic(auto)]

pub mod sizes;
