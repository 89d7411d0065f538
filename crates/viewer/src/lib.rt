// The ribbon viewer: over the caller's own letters and marks it gives a cell's letter, row and column. The work is done over slices (crate coordinates); here
// stands the thin struct that holds references to letters and marks.
#![tactic(auto)]

pub mod viewers;
