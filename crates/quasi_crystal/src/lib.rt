// The moves of the quasi-crystal, and what rewriting has to do with them: no code. Definitions stand in specs/, theorems in proofs/.
#![tactic(auto)]
