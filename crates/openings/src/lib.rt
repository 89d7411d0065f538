// A new cell in the pair in the first cells of three lent lists, one list at a time: from its place on the used elements move one on.
#![tactic(auto)]

pub mod lists;
