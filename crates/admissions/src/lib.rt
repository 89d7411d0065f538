// Whether a letter can be inserted into a pair in lent memory: the checks of insertion, in rising number.
#![tactic(auto)]

pub mod checks;
