// The checks of a word in rising number, each over the whole input. Where 1 or 2 refuses, no letter is read.
ghost use Rattle.std.specs.Prelude.{◌≡◌};
ghost use Rattle.outcomes.specs.Replies.{first, passed};
ghost use Rattle.outcomes.specs.Judgements.{word_judgements};
ghost use Rattle.refusals.specs.Said.{said_verdict};

use crate::letters::check_letters;
use refusals::chains::check_limits;
use refusals::refusal::Refusal;

// 1, 2 and 4 of a word.
pub fn check_word(rank: usize, word: &[u8]) -> Result<(), Refusal>
    ensures { said_verdict result ≡ first (word_judgements rank word.now) passed }
{
    check_limits(rank, word.len())?;
    check_letters(rank, word)
}
