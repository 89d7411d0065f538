// The words of a class in dictionary order, how many they are, and their numbers: the meaning and its laws. No code: definitions stand in specs/, theorems in
// proofs/.
#![tactic(auto)]
