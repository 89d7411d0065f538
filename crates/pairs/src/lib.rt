// A pair, a tableau with its recording ribbon, in lent memory: one letter inserted. The operation takes whatever it is given and answers a result or the
// exact refusal.
#![tactic(auto)]

pub mod insertion;
