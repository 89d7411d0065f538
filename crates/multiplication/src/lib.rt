// The product of two quasi-ribbon tableaux, from their letters, marks and letter counts alone: the counts that both bring are added, and the junction set of
// the product comes from counts and down steps letter by letter. The public function takes whatever it is given and answers a result or the exact refusal.
#![tactic(auto)]

mod downs;
mod merging;
pub mod product;
mod sums;
