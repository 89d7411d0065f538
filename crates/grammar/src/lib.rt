// The kernel's lines as bytes and the grammar that reads them: no code. Definitions stand in specs/, theorems in proofs/.
#![tactic(auto)]
