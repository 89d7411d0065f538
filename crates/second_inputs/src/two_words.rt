// The checks of two words in rising number, each over the whole input. The first that refuses is the last that is made, so that where 1 or 2 refuses no letter
// is read.
ghost use Rattle.std.specs.Prelude.{[], ◌∷◌, ◌≡◌};
ghost use Rattle.outcomes.specs.Replies.{first, passed};
ghost use Rattle.outcomes.specs.Judgements.{length_judged, rank_judged};
ghost use Rattle.outcomes.specs.WordOperations.{words_judgements};
ghost use Rattle.refusals.specs.Said.{said_verdict};

use crate::counting::check_second_letters;
use acceptance::letters::check_letters;
use refusals::numbers::{check_length, check_rank};
use refusals::refusal::Refusal;

// 1 and 2 of two words or tableaux: each over the first, then over the second.
pub fn check_two_limits(
    first_rank: usize,
    first_length: usize,
    second_rank: usize,
    second_length: usize,
) -> Result<(), Refusal>
    ensures { said_verdict result
        ≡ first
        (rank_judged first_rank ∷ rank_judged second_rank ∷ length_judged first_length ∷ length_judged second_length ∷ [])
        passed }
{
    check_rank(first_rank)?;
    check_rank(second_rank)?;
    check_length(first_length)?;
    check_length(second_length)
}

// 1, 2 and 4 of two words: every check over the first, then over the second, before the next check.
pub fn check_words(
    first_rank: usize,
    first_word: &[u8],
    second_rank: usize,
    second_word: &[u8],
) -> Result<(), Refusal>
    ensures { said_verdict result
        ≡ first (words_judgements first_rank first_word.now second_rank second_word.now) passed }
{
    check_two_limits(first_rank, first_word.len(), second_rank, second_word.len())?;
    check_letters(first_rank, first_word)?;
    check_second_letters(first_word, second_rank, second_word)
}
