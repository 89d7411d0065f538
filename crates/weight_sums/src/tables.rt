// The comparison on two arrays of letter counts: the sums of the first k counts of each, for every k, carried along from k to k + 1.
ghost use Rattle.std.specs.Prelude.{◌≡◌, Ok, [], ◌∷◌};
ghost use Rattle.outcomes.specs.Replies.{gives};
ghost use Rattle.hypoplactic.specs.Weights.{comparison};
ghost use Rattle.outcomes.specs.WordOperations.{comparison_number};
ghost use Rattle.refusals.specs.Said.{said_weights};
ghost use Rattle.weight_sums.specs.Tables.{compare_tables};

use crate::sums::{Sums, next_sums};
use std::cmp::Ordering;

// The order of two weights, from whether the first is at most and at least the second: none where it is neither.
fn order(at_most: bool, at_least: bool) -> Option<Ordering>
    ensures { said_weights (Ok result) ≡ gives (comparison_number (comparison at_most at_least) ∷ []) }
{
    match (at_most, at_least) {
        (true, true) => Some(Ordering::Equal),
        (true, false) => Some(Ordering::Less),
        (false, true) => Some(Ordering::Greater),
        (false, false) => None,
    }
}

// The comparison over all 64 letters.
#[tactic(auto, using(crate::specs::Tables::summing))]
pub fn compare_counts(first: &[u16; 64], second: &[u16; 64]) -> Option<Ordering>
    ensures { said_weights (Ok result) ≡ gives (comparison_number (compare_tables first.now second.now) ∷ []) }
{
    let mut sums = Sums {
        first: 0,
        second: 0,
    };
    let mut at_most = true;
    let mut at_least = true;
    for (first_count, second_count) in first.iter().zip(second) {
        sums = next_sums(sums, *first_count, *second_count);
        at_most = at_most && sums.first <= sums.second;
        at_least = at_least && sums.second <= sums.first;
    }
    order(at_most, at_least)
}
