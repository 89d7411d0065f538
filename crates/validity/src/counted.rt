// The checks of a tableau and of a pair that bring letter counts: those of the plain checks, and 17 directly after 6. Where 1, 2 or 3 refuses, no element is
// read.
ghost use Rattle.std.specs.Prelude.{◌≡◌, [], ◌∷◌};
ghost use Rattle.outcomes.specs.Replies.{first, passed};
ghost use Rattle.outcomes.specs.Counts.{counts_judged};
ghost use Rattle.outcomes.specs.Judgements.{counted_judgements, counted_pair_judgements, letters_judged, marks_judged, rising_judged};
ghost use Rattle.refusals.specs.Said.{said_verdict};

use crate::tableau::{check_pair_sizes, check_ribbon, check_tableau_sizes};
use acceptance::letters::check_letters;
use counts::shape::check_counted_shape;
use lent::tableaux::{CountedPair, CountedTableau};
use refusals::refusal::Refusal;

// 4, 5, 6 and 17: the cells of a tableau or of a pair, and its letter counts.
fn check_counted_cells(
    rank: usize,
    letters: &[u8],
    marks: &[u8],
    counts: &[u16; 64],
) -> Result<(), Refusal>
    ensures { said_verdict result
        ≡ first
        (letters_judged rank letters.now ∷ rising_judged letters.now ∷ marks_judged letters.now marks.now
        ∷ counts_judged counts.now letters.now ∷ [])
        passed }
{
    check_letters(rank, letters)?;
    check_counted_shape(letters, marks, counts)
}

// 1 to 6 of a tableau, and 17.
pub fn check_counted_tableau(tableau: &CountedTableau) -> Result<(), Refusal>
    ensures { said_verdict result
        ≡ first
        (counted_judgements tableau.now.rank tableau.now.letters.now tableau.now.marks.now tableau.now.counts.now)
        passed }
{
    check_tableau_sizes(tableau.rank, tableau.letters.len(), tableau.marks.len())?;
    check_counted_cells(tableau.rank, tableau.letters, tableau.marks, tableau.counts)
}

// 1 to 6 of a pair, 17, 7 and 8.
pub fn check_counted_pair(pair: &CountedPair) -> Result<(), Refusal>
    ensures { said_verdict result
        ≡ first
        (counted_pair_judgements
        pair.now.rank
        pair.now.letters.now
        pair.now.marks.now
        pair.now.entries.now
        pair.now.counts.now)
        passed }
{
    check_pair_sizes(
        pair.rank,
        pair.letters.len(),
        pair.marks.len(),
        pair.entries.len(),
    )?;
    check_counted_cells(pair.rank, pair.letters, pair.marks, pair.counts)?;
    check_ribbon(pair.letters.len(), pair.entries, pair.marks)
}
