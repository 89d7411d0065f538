// The junction set of a word, built and tested by shifts and masks, and the rows that it gives.
ghost use Rattle.std.specs.Prelude.{◌≡◌};
ghost use Rattle.hypoplactic.specs.Words.{Accepted};
ghost use Rattle.hypoplactic.specs.Junctions.{junction_set, rows_of};
ghost use Rattle.outcomes.specs.WordOperations.{junction_says};
ghost use Rattle.refusals.specs.Said.{said_junctions};
ghost use Rattle.words.specs.Given.{junction_given};
ghost use Rattle.words.specs.Junctions.{bit_at};

use crate::tables::{Places, or_place, places_of};
use acceptance::word::check_word;
use refusals::answers::Junctions;
use refusals::refusal::Refusal;

// The junction set, from the largest letter down. The next larger letter that occurs has its first place in `next`; `u16::MAX` is above every place.
#[tactic(auto, using(crate::specs::Junctions::building))]
fn junction_bits(rank: usize, word: &[u8]) -> u64
    requires { Accepted rank word.now }
    ensures { result ≡ junction_set word.now }
{
    let Places { first, last } = places_of(word);
    let mut set = 0;
    let mut next = u16::MAX;
    for a in (0..rank).rev() {
        set = (set << 1) | u64::from(next < last[a]);
        next = or_place(first[a], next);
    }
    set
}

// The junction set of a word; 0 where the word is refused by 1, 2 or 4.
#[tactic(auto, using(crate::specs::Given::giving))]
pub fn junction_set(rank: usize, word: &[u8]) -> u64
    ensures { result ≡ junction_given rank word.now }
{
    match check_word(rank, word) {
        Ok(()) => junction_bits(rank, word),
        Err(_) => 0,
    }
}

// Whether the bit of a letter is set.
#[tactic(auto, using(crate::specs::Junctions::building))]
pub fn junction_at(set: u64, letter: usize) -> bool
    ensures { result ≡ bit_at set letter }
{
    if letter < 1 || 64 < letter {
        return false;
    }
    (set >> (letter - 1)) & 1 == 1
}

// The rows of a word with this junction set.
#[tactic(auto, using(crate::specs::Junctions::building))]
fn rows_of(word: &[u8], set: u64) -> usize
    requires { set ≡ junction_set word.now }
    ensures { result ≡ rows_of word.now }
{
    if word.is_empty() {
        return 0;
    }
    set.count_ones() as usize + 1
}

// The junction set and the rows of a word, or the refusal of 1, 2 or 4.
#[tactic(auto, using(crate::specs::Junctions::building))]
pub fn junctions(rank: usize, word: &[u8]) -> Result<Junctions, Refusal>
    ensures { said_junctions result ≡ junction_says rank word.now }
{
    check_word(rank, word)?;
    let set = junction_bits(rank, word);
    let rows = rows_of(word, set);
    Ok(Junctions { set, rows })
}
