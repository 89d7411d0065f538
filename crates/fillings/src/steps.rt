// A quasi-ribbon tableau filled letter by letter: each letter as often as a table says, and the step into its first cell by a second table, down where that has
// a 1 for the letter and right where it does not.
ghost use Rattle.std.specs.Prelude.{◌≡◌, length};
ghost use Rattle.hypoplactic.specs.Places.{layers};
ghost use Rattle.outcomes.specs.Replies.{written};
ghost use Rattle.fillings.specs.Filled.{filled_runs};
ghost use Rattle.fillings.specs.Layers.{Fitted, steps_in};

use crate::runs::write_run;
use crate::tableau::{cells_of, write_letters};

// Writes the marks of each letter from 1 to rank, as many as the table says.
#[tactic(auto, using(crate::specs::Layers::stepping))]
fn write_steps(rank: usize, counts: &[u16; 64], steps: &[u8; 64], marks: &mut [u8])
    requires { Fitted rank counts.now (length marks.old) }
    ensures { marks.new ≡ written (layers (steps_in steps.now counts.now) rank 1) marks.old }
{
    let mut at = 0;
    for a in 0..rank {
        let end = at + usize::from(counts[a]);
        write_run(&mut marks[at..end], steps[a] == 1);
        at = end;
    }
}

// The tableau of the letters 1 to rank, each as often as the one table says and stepped into as the other says, into lent letters and marks. Both are left as
// they were where the rank is above 64 or one of them has no room.
#[tactic(auto, using(crate::specs::Filled::filling_runs))]
pub fn fill_runs(
    rank: usize,
    counts: &[u16; 64],
    steps: &[u8; 64],
    letters: &mut [u8],
    marks: &mut [u8],
)
    ensures { (letters.new, marks.new)
        ≡ filled_runs rank counts.now steps.now letters.old marks.old }
{
    if 64 < rank {
        return;
    }
    let cells = cells_of(rank, counts);
    if letters.len().min(marks.len()) < cells {
        return;
    }
    write_letters(rank, counts, letters);
    write_steps(rank, counts, steps, marks);
}
