// Moves and repeat counts on a tableau that brings its letter counts (document 01, "Moves"; document 02, N6). The tableau is judged, one scan of its down
// steps tells whether there is an inversion, and the move of the letters is shared with words. A move changes letters and two counts in place; the marks are
// lent for reading only. A repeat count is read off the counts.
ghost use Rattle.std.specs.Prelude.{◌≡◌, [], ◌∷◌};
ghost use Rattle.outcomes.specs.Judgements.{counted_judgements, index_judged};
ghost use Rattle.quasi_crystal.specs.Moves.{lowering, raising};
ghost use Rattle.outcomes.specs.TableauOperations.{move_tableau_run, repeat_tableau_says};
ghost use Rattle.refusals.specs.Running.{checks_then};
ghost use Rattle.refusals.specs.Said.{said_value, said_verdict};
ghost use Rattle.operators.specs.Targets.{move_by};
ghost use Rattle.tableaux.specs.Moves.{move_cells_run};

use crate::changed_counts::{change_counts, count_taken};
use inversions::scan::has_below;
use lent::tableaux::CountedTableau;
use operators::changes::{Side, move_letters};
use refusals::numbers::check_index;
use refusals::refusal::Refusal;
use validity::counted::check_counted_tableau;

// The move of either side in the lent letters, the counts being lent for reading: all of the move but the change of counts.
#[tactic(auto, using(crate::specs::Moves::shifting))]
fn move_cells(
    side: Side,
    rank: usize,
    index: usize,
    letters: &mut [u8],
    marks: &[u8],
    counts: &[u16; 64],
) -> Result<usize, Refusal>
    ensures { (said_value result, letters.new) ≡ move_cells_run rank (move_by side index) letters.old marks.now counts.now }
{
    let tableau = CountedTableau {
        rank,
        letters,
        marks,
        counts,
    };
    check_counted_tableau(&tableau)?;
    let inversion = has_below(index, letters, marks);
    move_letters(side, rank, index, inversion, letters)
}

// The move of either side, in the lent letters and counts.
// Kept: parameters one by one, for the letters and counts are lent to be changed, as the C interface lends them (`luchtrav_raise_tableau`).
#[tactic(auto, using(crate::specs::Moves::moving))]
pub fn move_tableau(
    side: Side,
    rank: usize,
    index: usize,
    letters: &mut [u8],
    marks: &[u8],
    counts: &mut [u16; 64],
) -> Result<usize, Refusal>
    ensures { (said_value result, (letters.new, counts.new))
        ≡ move_tableau_run rank (move_by side index) letters.old marks.now counts.old }
{
    let place = move_cells(side, rank, index, letters, marks, counts)?;
    // Kept: 9 has passed, so the index fits a byte, here and below.
    change_counts(side, index as u8, counts);
    Ok(place)
}

// Raising: the first i+1 in ribbon order becomes i.
// Kept: raising and lowering by name, here and below, as C calls them (`luchtrav_raise_tableau`).
pub fn raise_tableau(
    rank: usize,
    index: usize,
    letters: &mut [u8],
    marks: &[u8],
    counts: &mut [u16; 64],
) -> Result<usize, Refusal>
    ensures { (said_value result, (letters.new, counts.new))
        ≡ move_tableau_run rank (record { side = raising; index = index }) letters.old marks.now counts.old }
{
    move_tableau(Side::Raising, rank, index, letters, marks, counts)
}

// Lowering: the last i in ribbon order becomes i+1.
pub fn lower_tableau(
    rank: usize,
    index: usize,
    letters: &mut [u8],
    marks: &[u8],
    counts: &mut [u16; 64],
) -> Result<usize, Refusal>
    ensures { (said_value result, (letters.new, counts.new))
        ≡ move_tableau_run rank (record { side = lowering; index = index }) letters.old marks.now counts.old }
{
    move_tableau(Side::Lowering, rank, index, letters, marks, counts)
}

// 1 to 6, 17 and 9.
#[tactic(auto, unfolding(refusals::specs::Running::checks_then))]
fn check_repeat(index: usize, tableau: &CountedTableau) -> Result<(), Refusal>
    ensures { said_verdict result
        ≡ checks_then
        (counted_judgements tableau.now.rank tableau.now.letters.now tableau.now.marks.now tableau.now.counts.now)
        (index_judged tableau.now.rank index ∷ []) }
{
    check_counted_tableau(tableau)?;
    check_index(tableau.rank, index)
}

// How often the move of either side can be made, one after the other: never under an inversion, else once for each letter that it takes.
#[tactic(auto, using(crate::specs::Moves::repeating))]
pub fn repeat_tableau(side: Side, index: usize, tableau: &CountedTableau) -> Result<usize, Refusal>
    ensures { said_value result
        ≡ repeat_tableau_says
        tableau.now.rank
        (move_by side index)
        tableau.now.letters.now
        tableau.now.marks.now
        tableau.now.counts.now }
{
    check_repeat(index, tableau)?;
    if has_below(index, tableau.letters, tableau.marks) {
        return Ok(0);
    }
    Ok(count_taken(side, index as u8, tableau.counts))
}

// How often raising can be repeated.
pub fn raise_count_tableau(index: usize, tableau: &CountedTableau) -> Result<usize, Refusal>
    ensures { said_value result
        ≡ repeat_tableau_says
        tableau.now.rank
        (record { side = raising; index = index })
        tableau.now.letters.now
        tableau.now.marks.now
        tableau.now.counts.now }
{
    repeat_tableau(Side::Raising, index, tableau)
}

// How often lowering can be repeated.
pub fn lower_count_tableau(index: usize, tableau: &CountedTableau) -> Result<usize, Refusal>
    ensures { said_value result
        ≡ repeat_tableau_says
        tableau.now.rank
        (record { side = lowering; index = index })
        tableau.now.letters.now
        tableau.now.marks.now
        tableau.now.counts.now }
{
    repeat_tableau(Side::Lowering, index, tableau)
}
