// Whether two words are of one class, and whether two arrays of letter counts are equal. Each public function takes whatever it is given and answers a result
// or the exact refusal.
#![tactic(auto)]

pub mod tables;
pub mod two_words;
