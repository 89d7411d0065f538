// Run form for tableau lines (document 02, N9): the C line tells a tableau letter by letter, each with its count. What its writer, its reader and the converters
// between T and C lines reply, and that C lines tell of words what T lines tell. No code: definitions stand in specs/, theorems in proofs/.
#![tactic(auto)]
