// Former lines turned into a P line: a T line and the N line of its recording ribbon. The public function takes whatever bytes it is given.
#![tactic(auto)]

pub mod former;
