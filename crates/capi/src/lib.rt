// The C interface: every operation of the kernel under one prefix, for packages in other languages (include/luchtrav.h is its manual).
#![tactic(auto)]

pub mod on_classes;
pub mod on_lines;
pub mod on_pairs;
pub mod on_runs;
pub mod on_tableaux;
pub mod on_two_tableaux;
pub mod on_words;
