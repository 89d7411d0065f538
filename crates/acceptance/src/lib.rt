// Whether a word is accepted: the checks 1, 2 and 4, each a total function over numbers and slices, equal to its judgement of the written meaning (crate
// outcomes). Beside them letters as bytes.
#![tactic(auto)]

pub mod bytes;
pub mod letters;
pub mod word;
