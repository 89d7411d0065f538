// Whether letters and marks have the shape of a quasi-ribbon tableau: the checks 5 and 6. Each is a total function over slices, equal to its judgement of
// the written meaning (crate outcomes). Beside them the search of 8 for a broken step: one function, private to the crate, serves all three.
#![tactic(auto)]

mod faults;
pub mod marks;
pub mod rising;
pub mod steps;
