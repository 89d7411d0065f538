// What operations reply to every input, and leave in lent memory, and what follows for it: no code. Definitions stand in specs/, theorems in proofs/.
#![tactic(auto)]
