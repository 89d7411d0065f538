// How many orders there are of taking the cells out of a ribbon one by one, told by its marks. The public function takes whatever it is given.
#![tactic(auto)]

pub mod orders;
