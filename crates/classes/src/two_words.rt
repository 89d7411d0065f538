// The same-class test: equal count of each letter, equal junction set. The ranks bound the letters and decide nothing else.
ghost use Rattle.std.specs.Prelude.{◌≡◌};
ghost use Rattle.hypoplactic.specs.Junctions.{same_class};
ghost use Rattle.outcomes.specs.WordOperations.{same_class_says};
ghost use Rattle.hypoplactic.specs.Words.{Accepted};
ghost use Rattle.refusals.specs.Said.{said_class};

use crate::tables::same_counts;
use refusals::refusal::Refusal;
use second_inputs::two_words::check_words;
use words::junctions::junction_set;
use words::tables::letter_counts;

// The test of two accepted words.
#[tactic(auto, using(crate::specs::Classes::matching))]
fn match_words(first_rank: usize, first: &[u8], second_rank: usize, second: &[u8]) -> bool
    requires { Accepted first_rank first.now × Accepted second_rank second.now }
    ensures { result ≡ same_class first.now second.now }
{
    let first_counts = letter_counts(first_rank, first);
    let second_counts = letter_counts(second_rank, second);
    same_counts(&first_counts, &second_counts)
        && junction_set(first_rank, first) == junction_set(second_rank, second)
}

// Whether two words are of one class, whatever their ranks.
#[tactic(auto, using(crate::specs::Classes::matching))]
pub fn same_class(
    first_rank: usize,
    first: &[u8],
    second_rank: usize,
    second: &[u8],
) -> Result<bool, Refusal>
    ensures { said_class result ≡ same_class_says first_rank first.now second_rank second.now }
{
    check_words(first_rank, first, second_rank, second)?;
    Ok(match_words(first_rank, first, second_rank, second))
}
