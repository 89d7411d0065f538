// The readers of T and P lines: the values of a line into lent memory, or the exact refusal. Every public function takes whatever it is given.
#![tactic(auto)]

pub mod pair;
pub mod tableau;
