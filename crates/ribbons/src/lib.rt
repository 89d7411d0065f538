// The pair of a word, its quasi-ribbon tableau and its recording ribbon, written into lent memory. The operation takes whatever it is given and answers a
// result or the exact refusal.
#![tactic(auto)]

pub mod pair;
