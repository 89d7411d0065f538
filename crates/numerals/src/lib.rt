// Decimal numbers and single bytes of a line, read at a place of the text. Every public function takes whatever place it is given.
#![tactic(auto)]

pub mod numbers;
