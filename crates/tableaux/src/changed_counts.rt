// The two letter counts that a move on a tableau is about: that of the letter it takes and that of the letter it gives.
ghost use Rattle.std.specs.Prelude.{◌-◌, ◌<◌, ◌≡◌, get_or};
ghost use Rattle.outcomes.specs.Counts.{one_over};
ghost use Rattle.quasi_crystal.specs.Moves.{given, taken};
ghost use Rattle.operators.specs.Targets.{side_of};
ghost use Rattle.tableaux.specs.Counts.{Movable};

use operators::changes::Side;

// How often the letter that a move takes is counted.
#[tactic(auto, using(crate::specs::Counts::counting))]
pub(crate) fn count_taken(side: Side, index: u8, counts: &[u16; 64]) -> usize
    requires { (0 < index) × (index < 64) }
    ensures { result ≡ get_or counts.now (taken (side_of side) index - 1) 0 }
{
    usize::from(counts[side.taken(index) - 1])
}

// The counts after a move: one less of the letter taken, one more of the letter given.
#[tactic(auto, using(crate::specs::Counts::counting))]
pub(crate) fn change_counts(side: Side, index: u8, counts: &mut [u16; 64])
    requires { Movable (side_of side) index counts.old }
    ensures { counts.new ≡ one_over counts.old (taken (side_of side) index) (given (side_of side) index) }
{
    let from = side.taken(index) - 1;
    let to = side.given(index) - 1;
    counts[from] -= 1;
    counts[to] += 1;
}
