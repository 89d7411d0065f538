// Moves and repeat counts on a word (document 01, "Moves"). The word and the index are judged, two scans tell whether there is an inversion, and what follows
// is shared with tableaux (changes).
ghost use Rattle.std.specs.Prelude.{◌≡◌, [], ◌∷◌, ◌<◌};
ghost use Rattle.outcomes.specs.Judgements.{index_judged, word_judgements};
ghost use Rattle.quasi_crystal.specs.Moves.{inverted, lowering, raising};
ghost use Rattle.outcomes.specs.WordOperations.{move_word_run, repeat_word_says};
ghost use Rattle.refusals.specs.Running.{checks_then};
ghost use Rattle.refusals.specs.Said.{said_value, said_verdict};
ghost use Rattle.operators.specs.Targets.{move_by};

use crate::changes::{Side, move_letters, repeat_letters};
use acceptance::word::check_word;
use occurrences::places::{leftmost, rightmost, stands_left};
use refusals::numbers::check_index;
use refusals::refusal::Refusal;

// 1, 2, 4 and 9: what a move and a repeat count check first.
#[tactic(auto, using(crate::specs::Moves::judging))]
fn check_move(rank: usize, index: usize, word: &[u8]) -> Result<(), Refusal>
    ensures { said_verdict result ≡ checks_then (word_judgements rank word.now) (index_judged rank index ∷ []) }
{
    check_word(rank, word)?;
    check_index(rank, index)
}

// Whether some i+1 stands left of some i, adjacent or not.
#[tactic(auto, using(crate::specs::Moves::inverting))]
fn has_inversion(index: u8, word: &[u8]) -> bool
    requires { index < 64 }
    ensures { result ≡ inverted index word.now }
{
    stands_left(leftmost(index + 1, word), rightmost(index, word))
}

// The move of either side, in the lent letters.
#[tactic(auto, using(crate::specs::Moves::moving))]
pub fn move_word(side: Side, rank: usize, index: usize, word: &mut [u8]) -> Result<usize, Refusal>
    ensures { (said_value result, word.new) ≡ move_word_run rank (move_by side index) word.old }
{
    check_move(rank, index, word)?;
    // Kept: 9 has passed, so the index fits a byte, here and below; `try_from` would ask what to do where it does not.
    let inversion = has_inversion(index as u8, word);
    move_letters(side, rank, index, inversion, word)
}

// Raising: the leftmost i+1 becomes i.
// Kept: raising and lowering by name, here and below, as C calls them (`luchtrav_raise_word`).
pub fn raise_word(rank: usize, index: usize, word: &mut [u8]) -> Result<usize, Refusal>
    ensures { (said_value result, word.new) ≡ move_word_run rank (record { side = raising; index = index }) word.old }
{
    move_word(Side::Raising, rank, index, word)
}

// Lowering: the rightmost i becomes i+1.
pub fn lower_word(rank: usize, index: usize, word: &mut [u8]) -> Result<usize, Refusal>
    ensures { (said_value result, word.new) ≡ move_word_run rank (record { side = lowering; index = index }) word.old }
{
    move_word(Side::Lowering, rank, index, word)
}

// How often the move of either side can be made, one after the other.
#[tactic(auto, using(crate::specs::Moves::repeating))]
pub fn repeat_word(side: Side, rank: usize, index: usize, word: &[u8]) -> Result<usize, Refusal>
    ensures { said_value result ≡ repeat_word_says rank (move_by side index) word.now }
{
    check_move(rank, index, word)?;
    let inversion = has_inversion(index as u8, word);
    repeat_letters(side, rank, index, inversion, word)
}

// How often raising can be repeated.
pub fn raise_count_word(rank: usize, index: usize, word: &[u8]) -> Result<usize, Refusal>
    ensures { said_value result ≡ repeat_word_says rank (record { side = raising; index = index }) word.now }
{
    repeat_word(Side::Raising, rank, index, word)
}

// How often lowering can be repeated.
pub fn lower_count_word(rank: usize, index: usize, word: &[u8]) -> Result<usize, Refusal>
    ensures { said_value result ≡ repeat_word_says rank (record { side = lowering; index = index }) word.now }
{
    repeat_word(Side::Lowering, rank, index, word)
}
