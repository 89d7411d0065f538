// What callers lend for reading: a tableau, a tableau with its letter counts, a pair and a pair with its letter counts, each as a struct of references with the
// rank that it is lent at. Nothing is asked of them: whether they are what their names say is judged by the checks of the crates above.
#![tactic(auto)]

pub mod tableaux;
