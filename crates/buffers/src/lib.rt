// Lent memory: values copied into it, and tails of it shifted or pulled by one, for elements of any type that is copied.
// Every public function takes whatever it is given.
#![tactic(auto)]

pub mod copies;
pub mod pulls;
pub mod shifts;
