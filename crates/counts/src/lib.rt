// Whether the letter counts that a tableau brings along are those of its letters: the check 17, a total function over slices, equal to its judgement of the
// written meaning (crate outcomes).
#![tactic(auto)]

mod blocks;
pub mod check;
pub mod shape;
mod tally;
