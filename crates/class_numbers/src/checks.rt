// The checks of the operations on numbers of words: 15 after the other checks of the input, then 16 and 13.
ghost use Rattle.std.specs.Prelude.{[], ◌∷◌, ◌≡◌, length};
ghost use Rattle.outcomes.specs.Judgements.{counted_judgements, room_judged, word_judgements};
ghost use Rattle.outcomes.specs.Replies.{first, passed};
ghost use Rattle.numbering.specs.Operations.{number_judged, small_judged};
ghost use Rattle.refusals.specs.Running.{checks_then};
ghost use Rattle.refusals.specs.Said.{said_verdict};

use acceptance::word::check_word;
use lent::tableaux::CountedTableau;
use refusals::numbers::check_room;
use refusals::refusal::Refusal;
use validity::counted::check_counted_tableau;

// 15: at most 20 cells or letters.
#[tactic(auto, unfolding(numbering::specs::Operations::small_judged))]
fn check_small(cells: usize) -> Result<(), Refusal>
    ensures { said_verdict result ≡ small_judged cells }
{
    if 20 < cells {
        return Err(Refusal::Large);
    }
    Ok(())
}

// 1 to 6 of a tableau, 17 of its letter counts, then 15.
#[tactic(auto, unfolding(refusals::specs::Running::checks_then))]
pub(crate) fn check_class(tableau: &CountedTableau) -> Result<(), Refusal>
    ensures { said_verdict result
        ≡ checks_then
        (counted_judgements tableau.now.rank tableau.now.letters.now tableau.now.marks.now tableau.now.counts.now)
        (small_judged (length tableau.now.letters.now) ∷ []) }
{
    check_counted_tableau(tableau)?;
    check_small(tableau.letters.len())
}

// 1, 2 and 4 of a word, then 15.
#[tactic(auto, unfolding(refusals::specs::Running::checks_then))]
pub(crate) fn check_short(rank: usize, word: &[u8]) -> Result<(), Refusal>
    ensures { said_verdict result ≡ checks_then (word_judgements rank word.now) (small_judged (length word.now) ∷ []) }
{
    check_word(rank, word)?;
    check_small(word.len())
}

// 16: the number is below the size; then 13.
#[tactic(auto, unfolding(numbering::specs::Operations::number_judged))]
pub(crate) fn check_asked(number: u64, size: u64, need: usize, have: usize) -> Result<(), Refusal>
    ensures { said_verdict result ≡ first (number_judged number size ∷ room_judged need have ∷ []) passed }
{
    if size <= number {
        return Err(Refusal::PastLast);
    }
    check_room(need, have)
}
