// The class and the weights of two tableaux, each with a rank of its own, answered from the marks and the letter counts that they bring. The public functions
// take whatever they are given and answer a result or the exact refusal.
#![tactic(auto)]

pub mod two_tableaux;
