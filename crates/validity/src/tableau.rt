// The checks of a tableau and of a pair, in rising number, each over the whole input. The first that refuses is the last that is made, so that where 1, 2 or 3
// refuses no element is read.
ghost use Rattle.std.specs.Prelude.{◌≡◌, [], ◌∷◌};
ghost use Rattle.outcomes.specs.Replies.{first, passed};
ghost use Rattle.outcomes.specs.Judgements.{alike_judged, entries_judged, length_judged, letters_judged, marks_judged, pair_judgements, rank_judged, recording_judged, rising_judged, tableau_judgements};
ghost use Rattle.refusals.specs.Said.{said_verdict};

use acceptance::letters::check_letters;
use lent::tableaux::{Pair, Tableau};
use recordings::recording::{check_entries, check_recording};
use refusals::chains::check_limits;
use refusals::numbers::{check_marks_alike, check_parts_alike};
use refusals::refusal::Refusal;
use shapes::marks::check_marks;
use shapes::rising::check_rising;

// 4, 5 and 6: the cells of a tableau or of a pair.
fn check_cells(rank: usize, letters: &[u8], marks: &[u8]) -> Result<(), Refusal>
    ensures { said_verdict result
        ≡ first
        (letters_judged rank letters.now ∷ rising_judged letters.now ∷ marks_judged letters.now marks.now ∷ [])
        passed }
{
    check_letters(rank, letters)?;
    check_rising(letters)?;
    check_marks(letters, marks)
}

// 7 and 8: a recording ribbon beside marks.
pub fn check_ribbon(limit: usize, entries: &[u16], marks: &[u8]) -> Result<(), Refusal>
    ensures { said_verdict result
        ≡ first (entries_judged limit entries.now ∷ recording_judged entries.now marks.now ∷ []) passed }
{
    check_entries(limit, entries)?;
    check_recording(entries, marks)
}

// 1, 2 and 3 of a tableau: what is judged before an element is read.
pub(crate) fn check_tableau_sizes(rank: usize, letters: usize, marks: usize) -> Result<(), Refusal>
    ensures { said_verdict result ≡ first (rank_judged rank ∷ length_judged letters ∷ alike_judged letters (marks ∷ []) ∷ []) passed }
{
    check_limits(rank, letters)?;
    check_marks_alike(letters, marks)
}

// 1 to 6 of a tableau.
pub fn check_tableau(tableau: &Tableau) -> Result<(), Refusal>
    ensures { said_verdict result
        ≡ first (tableau_judgements tableau.now.rank tableau.now.letters.now tableau.now.marks.now) passed }
{
    check_tableau_sizes(tableau.rank, tableau.letters.len(), tableau.marks.len())?;
    check_cells(tableau.rank, tableau.letters, tableau.marks)
}

// 1, 2 and 3 of a pair.
pub(crate) fn check_pair_sizes(
    rank: usize,
    letters: usize,
    marks: usize,
    entries: usize,
) -> Result<(), Refusal>
    ensures { said_verdict result ≡ first (rank_judged rank ∷ length_judged letters ∷ alike_judged letters (marks ∷ entries ∷ []) ∷ []) passed }
{
    check_limits(rank, letters)?;
    check_parts_alike(letters, marks, entries)
}

// 1 to 8 of a pair.
pub fn check_pair(pair: &Pair) -> Result<(), Refusal>
    ensures { said_verdict result
        ≡ first (pair_judgements pair.now.rank pair.now.letters.now pair.now.marks.now pair.now.entries.now) passed }
{
    check_pair_sizes(
        pair.rank,
        pair.letters.len(),
        pair.marks.len(),
        pair.entries.len(),
    )?;
    check_cells(pair.rank, pair.letters, pair.marks)?;
    check_ribbon(pair.letters.len(), pair.entries, pair.marks)
}
