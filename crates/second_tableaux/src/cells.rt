// The checks on elements of two tableaux, each over the first and then over the second.
ghost use Rattle.std.specs.Prelude.{◌≡◌};
ghost use Rattle.outcomes.specs.Replies.{first, passed};
ghost use Rattle.refusals.specs.Said.{said_verdict};
ghost use Rattle.second_tableaux.specs.Cells.{cells_judgements, counts_judgements, letters_judgements, parts_judgements, shapes_judgements};

use acceptance::letters::check_letters;
use counts::check::check_counts;
use counts::shape::check_counted_shape;
use lent::tableaux::CountedTableau;
use refusals::numbers::check_marks_alike;
use refusals::refusal::Refusal;
use second_inputs::counting::{
    check_second_counts, check_second_letters, check_second_marks, check_second_rising,
};
use shapes::marks::check_marks;
use shapes::rising::check_rising;

// 3: the marks of both are as many as their letters.
pub(crate) fn check_both_parts(one: &CountedTableau, other: &CountedTableau) -> Result<(), Refusal>
    ensures { said_verdict result ≡ first (parts_judgements one.now other.now) passed }
{
    check_marks_alike(one.letters.len(), one.marks.len())?;
    check_marks_alike(other.letters.len(), other.marks.len())
}

// 4: the letters of both, each at its rank.
fn check_both_letters(one: &CountedTableau, other: &CountedTableau) -> Result<(), Refusal>
    ensures { said_verdict result ≡ first (letters_judgements one.now other.now) passed }
{
    check_letters(one.rank, one.letters)?;
    check_second_letters(one.letters, other.rank, other.letters)
}

// 5 and 6 of both.
fn check_both_shapes(one: &CountedTableau, other: &CountedTableau) -> Result<(), Refusal>
    ensures { said_verdict result ≡ first (shapes_judgements one.now other.now) passed }
{
    check_rising(one.letters)?;
    check_second_rising(one.letters, other.letters)?;
    check_marks(one.letters, one.marks)?;
    check_second_marks(one.letters, other.letters, other.marks)
}

// 17: the letter counts of both.
fn check_both_counts(one: &CountedTableau, other: &CountedTableau) -> Result<(), Refusal>
    ensures { said_verdict result ≡ first (counts_judgements one.now other.now) passed }
{
    check_counts(one.letters, one.counts)?;
    check_second_counts(other.letters, other.counts)
}

// 4 to 6 and 17 of both. Past 4, where 5, 6 and 17 pass in each tableau at once, none is left to judge; else the first refusal is looked for in the order of
// the checks.
pub(crate) fn check_cells(one: &CountedTableau, other: &CountedTableau) -> Result<(), Refusal>
    ensures { said_verdict result ≡ first (cells_judgements one.now other.now) passed }
{
    check_both_letters(one, other)?;
    if check_counted_shape(one.letters, one.marks, one.counts).is_ok()
        && check_counted_shape(other.letters, other.marks, other.counts).is_ok()
    {
        return Ok(());
    }
    check_both_shapes(one, other)?;
    check_both_counts(one, other)
}
