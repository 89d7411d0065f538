// The reader of W lines: the word of a line into lent memory, or the exact refusal. It takes whatever it is given.
#![tactic(auto)]

pub mod word;
