// The raising and the lowering operator on a word, and how often each can be applied; what they share with tableaux. Every public function takes whatever it
// is given; an operation answers a result or the exact refusal.
#![tactic(auto)]

pub mod changes;
pub mod moves;
