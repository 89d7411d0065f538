// C lines, read by the grammar alone: the tally of a line's items and their tables by letter, or the place of the byte that breaks the grammar.
#![tactic(auto)]

mod items;
pub mod line;
mod runs;
