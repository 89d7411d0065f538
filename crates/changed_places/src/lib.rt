// The place that a move replies: what it means for the letters of a word and of its tableau, and its laws. No code: definitions stand in specs/, theorems in
// proofs/.
#![tactic(auto)]
