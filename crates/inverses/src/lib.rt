// The way back from a tableau and its recording ribbon to their one word. The operation takes whatever it is given and answers a result or the exact refusal.
#![tactic(auto)]

pub mod way_back;
