// Letter counts that tableaux bring along. The class and the weight of two tableaux: the checks of both in order, the replies, and that these are those of
// the two column readings. And that after each accepted call the counts in lent memory are those of the letters there. No code: definitions stand in specs/,
// theorems in proofs/.
#![tactic(auto)]
