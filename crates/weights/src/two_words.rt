// Comparison of weights: the sums of the first k letter counts of two words, for every k.
ghost use Rattle.std.specs.Prelude.{◌≡◌};
ghost use Rattle.outcomes.specs.WordOperations.{weights_says};
ghost use Rattle.refusals.specs.Said.{said_weights};

use refusals::refusal::Refusal;
use second_inputs::two_words::check_words;
use std::cmp::Ordering;
use weight_sums::tables::compare_counts;
use words::tables::letter_counts;

// The first word's weight against the second's.
#[tactic(auto, using(crate::specs::Weights::weighing))]
pub fn compare_weights(
    first_rank: usize,
    first: &[u8],
    second_rank: usize,
    second: &[u8],
) -> Result<Option<Ordering>, Refusal>
    ensures { said_weights result ≡ weights_says first_rank first.now second_rank second.now }
{
    check_words(first_rank, first, second_rank, second)?;
    let first_counts = letter_counts(first_rank, first);
    let second_counts = letter_counts(second_rank, second);
    Ok(compare_counts(&first_counts, &second_counts))
}
