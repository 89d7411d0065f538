// Whether two words are accepted, and the checks that name places in a second word or tableau. Each public function is a total function over numbers and
// slices, equal to its judgements of the written meaning (crate outcomes).
#![tactic(auto)]

pub mod counting;
pub mod two_words;
