// Moves and repeat counts on one tableau. Every public function takes whatever it is given; an operation answers a result or the exact refusal.
#![tactic(auto)]

mod changed_counts;
pub mod moves;
