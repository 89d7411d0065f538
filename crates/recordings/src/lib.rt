// Whether entries are a recording ribbon beside marks: the checks 7 and 8. Each is a total function over slices, equal to its judgement of the written
// meaning (crate outcomes).
#![tactic(auto)]

pub mod recording;
