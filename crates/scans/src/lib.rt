// Lines, read by the grammar alone: the values of a line into memory, or the place of the byte that breaks the grammar.
#![tactic(auto)]

mod cells;
pub mod line;
pub mod pair;
