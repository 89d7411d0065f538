// Whether letters, marks, entries and letter counts are a valid tableau or pair: the checks of whole tableaux and pairs, in rising number (17 directly after
// 6), each equal to its judgements of the written meaning (crate outcomes).
#![tactic(auto)]

pub mod counted;
pub mod tableau;
