// Former lines (document 02, N7): the T line and the N line of one pair, as old files have them, turned into its P line. What the converter replies to any
// two texts, and that on the former lines of an accepted word it gives the program's first line. No code: definitions stand in specs/, theorems in proofs/.
#![tactic(auto)]
