// Young tableaux and Schensted insertion, the mathematics of the plactic monoid: no code. Definitions stand in specs/, theorems in proofs/.
#![tactic(auto)]
