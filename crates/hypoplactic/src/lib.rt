// Words, rewriting and quasi-ribbon tableaux, the mathematics of the hypoplactic monoid: no code. Definitions stand in specs/, theorems in proofs/.
#![tactic(auto)]
