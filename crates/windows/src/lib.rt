// A window over a stream of letters (document 02, N8): the pair of the word that is in it, with its letter counts. What the departure of the oldest letter
// replies and leaves, and that any calls leave what inserting its letters afresh would. No code: definitions stand in specs/, theorems in proofs/.
#![tactic(auto)]
