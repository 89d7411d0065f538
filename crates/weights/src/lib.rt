// The weights of two words compared: whatever is given, a result or the exact refusal.
#![tactic(auto)]

pub mod two_words;
