// The weights of two arrays of letter counts compared, by sums that are carried along.
#![tactic(auto)]

mod sums;
pub mod tables;
