// Departure of the oldest letter from a window in lent memory (document 02, N8): past the checks its cell, the one with the entry 1, is taken out, and the
// letter is counted one less. No letter is inserted again.
ghost use Rattle.std.specs.Prelude.{◌≡◌};
ghost use Rattle.outcomes.specs.Counts.{one_less};
ghost use Rattle.hypoplactic.specs.Insertion.{pair_with};
ghost use Rattle.refusals.specs.Said.{said_value};
ghost use Rattle.windows.specs.Departures.{depart_run};
ghost use Rattle.departures.specs.Departure.{Counted};

use crate::checks::check_departure;
use closings::lists::{close_elements, close_entries, close_marks};
use closings::oldest::oldest_cell;
use lent::tableaux::CountedPair;
use refusals::refusal::Refusal;

// One less of a letter.
fn drop_count(letter: u8, counts: &mut [u16; 64])
    requires { Counted letter counts.old }
    ensures { counts.new ≡ one_less counts.old letter }
{
    counts[usize::from(letter) - 1] -= 1;
}

// The oldest letter leaves the window in the first cells of three lent lists, of which so many are used. The last used element of each list keeps its value,
// as those beyond do. The counts of an accepted call are those of the used letters, before and after. The marks are closed while the entries are as they were.
// Kept: lists that are written stay parameters: a struct of `&mut` gives a caller's reference no value after the call that got it inside the struct.
#[tactic(auto, using(crate::specs::Departure::replying))]
pub fn remove_oldest(
    rank: usize,
    used: usize,
    letters: &mut [u8],
    marks: &mut [u8],
    entries: &mut [u16],
    counts: &mut [u16; 64],
) -> Result<usize, Refusal>
    ensures { (said_value result, (pair_with letters.new marks.new entries.new, counts.new))
        ≡ depart_run rank used (pair_with letters.old marks.old entries.old) counts.old }
{
    let pair = CountedPair {
        rank,
        letters,
        marks,
        entries,
        counts,
    };
    check_departure(&pair, used)?;
    let at = oldest_cell(used, entries).unwrap();
    drop_count(letters[at], counts);
    close_elements(at, used, letters);
    close_marks(at, used, marks, entries);
    close_entries(at, used, entries);
    Ok(used - 1)
}
