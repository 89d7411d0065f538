// The checks of two tableaux in rising number, each over the first and then over the second, each with a rank of its own. Where 1, 2 or 3 refuses, no element
// is read.
ghost use Rattle.std.specs.Prelude.{◌≡◌};
ghost use Rattle.outcomes.specs.Replies.{first, passed};
ghost use Rattle.letter_counts.specs.TwoTableaux.{tableaux_judgements};
ghost use Rattle.refusals.specs.Said.{said_verdict};

use crate::cells::{check_both_parts, check_cells};
use lent::tableaux::CountedTableau;
use refusals::refusal::Refusal;
use second_inputs::two_words::check_two_limits;

// 1 to 6 and 17 of two tableaux.
pub fn check_tableaux(one: &CountedTableau, other: &CountedTableau) -> Result<(), Refusal>
    ensures { said_verdict result
        ≡ first
        (tableaux_judgements
        one.now.rank
        one.now.letters.now
        one.now.marks.now
        one.now.counts.now
        other.now.rank
        other.now.letters.now
        other.now.marks.now
        other.now.counts.now)
        passed }
{
    check_two_limits(one.rank, one.letters.len(), other.rank, other.letters.len())?;
    check_both_parts(one, other)?;
    check_cells(one, other)
}
