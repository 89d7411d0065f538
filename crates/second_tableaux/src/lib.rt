// Whether two tableaux that bring their letter counts are valid: as factors of one rank, or each with a rank of its own. Each function is a total function over
// numbers and slices, equal to its judgements of the written meaning (crates hypoplactic, products and letter_counts).
#![tactic(auto)]

mod cells;
pub mod factors;
pub mod two_tableaux;
