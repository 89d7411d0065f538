// What a move changes in letters, and how often it can, once it is known whether there is an inversion. Words and tableaux share it: they differ in what
// an inversion is, and in the checks that come before. Every public function takes whatever it is given.
ghost use Rattle.std.specs.Prelude.{◌≡◌, ◌<◌};
ghost use Rattle.quasi_crystal.specs.Moves.{given, taken, target};
ghost use Rattle.outcomes.specs.Replies.{first, passed};
ghost use Rattle.refusals.specs.Said.{said_value, said_verdict};
ghost use Rattle.operators.specs.Changes.{change_judgements, move_letters_run, repeat_letters_says};
ghost use Rattle.occurrences.specs.Places.{found_place};
ghost use Rattle.operators.specs.Targets.{move_by, side_of, target_of};

use multiplicities::counts::count_letters;
use occurrences::places::{leftmost, rightmost};
use refusals::chains::check_limits;
use refusals::numbers::{check_index, check_rank};
use refusals::refusal::Refusal;

// Raising turns an i+1 into i, lowering an i into i+1.
#[derive(Clone, Copy)]
pub enum Side {
    Raising,
    Lowering,
}

impl Side {
    // The letter that a move changes.
    pub fn taken(self, index: u8) -> usize
        ensures { result ≡ taken (side_of self) index }
    {
        match self {
            Side::Raising => usize::from(index) + 1,
            Side::Lowering => usize::from(index),
        }
    }

    // The letter that it becomes.
    pub fn given(self, index: u8) -> usize
        ensures { result ≡ given (side_of self) index }
    {
        match self {
            Side::Raising => usize::from(index),
            Side::Lowering => usize::from(index) + 1,
        }
    }
}

// The place that a move changes, if there is one: raising the leftmost i+1, lowering the rightmost i.
fn place_of(side: Side, index: u8, letters: &[u8]) -> Option<usize>
    requires { index < 64 }
    ensures { found_place result ≡ target (side_of side) index letters.now }
{
    let letter = side.taken(index) as u8;
    // Kept: two scans, one from each end of the letters, as `target` says.
    match side {
        Side::Raising => leftmost(letter, letters),
        Side::Lowering => rightmost(letter, letters),
    }
}

// The same unless there is an inversion, 10, or no letter to change, 11.
#[tactic(auto, unfolding(crate::specs::Targets::target_of))]
fn target_of(side: Side, index: u8, inversion: bool, letters: &[u8]) -> Result<usize, Refusal>
    requires { index < 64 }
    ensures { result ≡ target_of inversion (side_of side) index letters.now }
{
    if inversion {
        return Err(Refusal::Inversion);
    }
    place_of(side, index, letters).ok_or(Refusal::NoLetter)
}

// 1 and 9: the index is one of the rank's.
fn check_change(rank: usize, index: usize) -> Result<(), Refusal>
    ensures { said_verdict result ≡ first (change_judgements rank index) passed }
{
    check_rank(rank)?;
    check_index(rank, index)
}

// The move of either side, in the lent letters: 1, 9, 10 as told, 11, or one letter stored, and its place told.
#[tactic(auto, using(crate::specs::Changes::changing))]
pub fn move_letters(
    side: Side,
    rank: usize,
    index: usize,
    inversion: bool,
    letters: &mut [u8],
) -> Result<usize, Refusal>
    ensures { (said_value result, letters.new) ≡ move_letters_run rank (move_by side index) inversion letters.old }
{
    check_change(rank, index)?;
    let index = index as u8;
    let place = target_of(side, index, inversion, letters)?;
    letters[place] = side.given(index) as u8;
    Ok(place)
}

// How often the move of either side can be made, one after the other: 1, 2, 9, or the count. It is 0 under an inversion, else one for each letter that the
// move could change.
#[tactic(auto, using(crate::specs::Changes::recurring))]
pub(crate) fn repeat_letters(
    side: Side,
    rank: usize,
    index: usize,
    inversion: bool,
    letters: &[u8],
) -> Result<usize, Refusal>
    ensures { said_value result ≡ repeat_letters_says rank (move_by side index) inversion letters.now }
{
    check_limits(rank, letters.len())?;
    check_change(rank, index)?;
    if inversion {
        return Ok(0);
    }
    Ok(count_letters(side.taken(index as u8) as u8, letters))
}
