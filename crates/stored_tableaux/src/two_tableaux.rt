// Two tableaux are of one class where the counts of all letters and the marks are equal; their weights are compared by the counts alone. 17 has shown the counts
// to be those of the letters, so no letter is counted again.
ghost use Rattle.std.specs.Prelude.{◌≡◌};
ghost use Rattle.letter_counts.specs.TwoTableaux.{same_class_tableaux_says, weights_tableaux_says};
ghost use Rattle.refusals.specs.Said.{said_class, said_weights};

use classes::tables::same_counts;
use lent::tableaux::CountedTableau;
use refusals::refusal::Refusal;
use second_tableaux::two_tableaux::check_tableaux;
use std::cmp::Ordering;
use weight_sums::tables::compare_counts;

// Whether two tableaux are of one class, whatever their ranks.
#[tactic(auto, using(crate::specs::Stored::storing))]
pub fn same_class_of_tableaux(one: &CountedTableau, other: &CountedTableau) -> Result<bool, Refusal>
    ensures { said_class result
        ≡ same_class_tableaux_says
        one.now.rank
        one.now.letters.now
        one.now.marks.now
        one.now.counts.now
        other.now.rank
        other.now.letters.now
        other.now.marks.now
        other.now.counts.now }
{
    check_tableaux(one, other)?;
    Ok(same_counts(one.counts, other.counts) && one.marks == other.marks)
}

// The first tableau's weight against the second's.
#[tactic(auto, using(crate::specs::Stored::storing))]
pub fn compare_weights_of_tableaux(
    one: &CountedTableau,
    other: &CountedTableau,
) -> Result<Option<Ordering>, Refusal>
    ensures { said_weights result
        ≡ weights_tableaux_says
        one.now.rank
        one.now.letters.now
        one.now.marks.now
        one.now.counts.now
        other.now.rank
        other.now.letters.now
        other.now.marks.now
        other.now.counts.now }
{
    check_tableaux(one, other)?;
    Ok(compare_counts(one.counts, other.counts))
}
