// The written meaning of the product of two tableaux, and its laws: no code. Definitions stand in specs/, theorems in proofs/.
#![tactic(auto)]
