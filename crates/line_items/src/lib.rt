// The items of a line between its text and its values: local memory for them, and letters that were read, as bytes. Every public function takes whatever it is
// given.
#![tactic(auto)]

pub mod letters;
pub mod room;
