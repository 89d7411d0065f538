// Computed cases that fix each number, order and limit of the definitions that public contracts cite. There is no code here: the cases stand in specs/, their
// proofs in proofs/.
#![tactic(auto)]
