// The reader of C lines: the tableau of a line into lent memory, or the exact refusal. Every public function takes whatever it is given.
#![tactic(auto)]

pub mod runs;
