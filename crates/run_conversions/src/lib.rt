// A tableau's line turned from one form into the other: a T line into the C line of its tableau, and back. Every public function takes whatever bytes it is
// given.
#![tactic(auto)]

pub mod forms;
