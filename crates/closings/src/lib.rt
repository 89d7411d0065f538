// A cell out of the pair in the first cells of three lent lists, one list at a time, without inserting any letter again; and where the cell of the oldest
// letter is. Every public function takes whatever it is given.
#![tactic(auto)]

pub mod lists;
pub mod oldest;
