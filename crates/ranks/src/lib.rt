// The rank is a bound and no part of the class: demand 3 for words of any two ranks. No code: definitions stand in specs/, theorems in proofs/.
#![tactic(auto)]
