// Fillings: the letters and the marks of a tableau put into its cells, by how often each letter stands, and a junction set or the step into each letter. The
// public functions take whatever they are given.
#![tactic(auto)]

mod runs;
pub mod steps;
pub mod tableau;
