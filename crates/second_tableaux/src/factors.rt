// The checks of two factors of one rank in rising number, each over the first and then over the second. Where 1, 2 or 3 refuses, no element is read.
ghost use Rattle.std.specs.Prelude.{◌≡◌};
ghost use Rattle.outcomes.specs.Replies.{first, passed};
ghost use Rattle.products.specs.Products.{factors_judgements};
ghost use Rattle.refusals.specs.Said.{said_verdict};

use crate::cells::{check_both_parts, check_cells};
use lent::tableaux::CountedTableau;
use refusals::numbers::{check_rank, check_together};
use refusals::refusal::Refusal;

// 1 to 6 and 17 of two factors, both at the rank of the first. 2 judges the cells of both together.
pub fn check_factors(one: &CountedTableau, other: &CountedTableau) -> Result<(), Refusal>
    ensures { said_verdict result
        ≡ first
        (factors_judgements
        one.now.rank
        one.now.letters.now
        one.now.marks.now
        one.now.counts.now
        other.now.letters.now
        other.now.marks.now
        other.now.counts.now)
        passed }
{
    check_rank(one.rank)?;
    check_together(one.letters.len(), other.letters.len())?;
    check_both_parts(one, other)?;
    check_cells(
        one,
        &CountedTableau {
            rank: one.rank,
            ..*other
        },
    )
}
