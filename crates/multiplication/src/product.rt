// The product of two tableaux of one rank: the tableau of the first's column reading followed by the second's, found from letters, marks and letter counts
// alone.
ghost use Rattle.std.specs.Prelude.{◌≡◌};
ghost use Rattle.products.specs.Products.{product_run};
ghost use Rattle.refusals.specs.Said.{said_value};

use crate::downs::downs_of;
use crate::merging::{Factor, merged_set};
use crate::sums::sum_counts;
use fillings::tableau::fill_tableau;
use lent::tableaux::CountedTableau;
use refusals::numbers::check_room;
use refusals::refusal::Refusal;
use second_tableaux::factors::check_factors;

// The product of two tableaux, both at the rank of the first, into lent letters, marks and letter counts, or the refusal of 1 to 6, 17 or 13, which leaves all
// as they were. The cells are added only where 2 has passed.
// Kept: lent outputs are parameters, for what a caller lends in a struct of `&mut` has no value for it after the call.
#[tactic(auto, using(crate::specs::Product::replying))]
pub fn product(
    one: &CountedTableau,
    other: &CountedTableau,
    letters: &mut [u8],
    marks: &mut [u8],
    counts: &mut [u16; 64],
) -> Result<usize, Refusal>
    ensures { (said_value result, (letters.new, (marks.new, counts.new)))
        ≡ product_run
        one.now.rank
        one.now.letters.now
        one.now.marks.now
        one.now.counts.now
        other.now.letters.now
        other.now.marks.now
        other.now.counts.now
        letters.old
        marks.old
        counts.old }
{
    check_factors(one, other)?;
    let cells = one.letters.len() + other.letters.len();
    check_room(cells, letters.len())?;
    check_room(cells, marks.len())?;
    let first = Factor {
        counts: one.counts,
        downs: downs_of(one.letters, one.marks),
    };
    let second = Factor {
        counts: other.counts,
        downs: downs_of(other.letters, other.marks),
    };
    let set = merged_set(one.rank, &first, &second);
    let sums = sum_counts(one.counts, other.counts);
    fill_tableau(one.rank, &sums, set, letters, marks);
    *counts = sums;
    Ok(cells)
}
