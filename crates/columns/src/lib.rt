// The columns of a tableau, read from left to right, each from bottom to top. The operation takes whatever it is given and answers a result or the exact
// refusal.
#![tactic(auto)]

pub mod reading;
