// Tables of 64 numbers, one for each letter: how often the item with that letter says it stands, and the mark of the step into it. If letters rise strictly
// within 64, as 4 and 19 ask, the tables hold every item.
ghost use Rattle.std.specs.Prelude.{◌≡◌};
ghost use Rattle.run_tallies.specs.Tallies.{kept_at};

use crate::tally::is_outside;

// The number of an item at its letter's place. An item whose letter is outside 1 to 64 has none.
#[tactic(auto, unfolding(crate::specs::Tallies::kept_at))]
pub fn keep<T: Copy>(table: &mut [T; 64], letter: u16, value: T)
    ensures { table.new ≡ kept_at letter value table.old }
{
    if is_outside(64, letter) {
        return;
    }
    table[usize::from(letter) - 1] = value;
}
