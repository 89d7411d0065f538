// The checks on numbers alone: 1, 2, 3, 9, 12 and 13. Each is one test and the refusal that it leads to.
ghost use Rattle.std.specs.Prelude.{◌+◌, ◌≡◌, [], ◌∷◌};
ghost use Rattle.outcomes.specs.Replies.{passed, refuse_if};
ghost use Rattle.outcomes.specs.Judgements.{rank_judged, length_judged, alike_judged, used_judged, index_judged, full_judged, room_judged};
ghost use Rattle.refusals.specs.Said.{number, place, said_verdict};

use crate::refusal::Refusal;

// A refusal where something is wrong.
pub fn refuse_if(wrong: bool, refusal: Refusal) -> Result<(), Refusal>
    ensures { said_verdict result ≡ refuse_if wrong (number refusal) (place refusal) passed }
{
    if wrong { Err(refusal) } else { Ok(()) }
}

// 1: the rank is 1 to 64.
#[tactic(auto, using(crate::specs::Numbers::checking))]
pub fn check_rank(rank: usize) -> Result<(), Refusal>
    ensures { said_verdict result ≡ rank_judged rank }
{
    refuse_if(rank < 1 || 64 < rank, Refusal::Rank)
}

// 2: at most 1,024 letters or used cells.
#[tactic(auto, using(crate::specs::Numbers::checking))]
pub fn check_length(length: usize) -> Result<(), Refusal>
    ensures { said_verdict result ≡ length_judged length }
{
    refuse_if(1024 < length, Refusal::Length)
}

// 2 of two words or tableaux together. A number above 1,025 is taken for 1,025, which alone is too many, so that the sum fits.
#[tactic(auto, using(crate::specs::Numbers::checking))]
pub fn check_together(first: usize, second: usize) -> Result<(), Refusal>
    ensures { said_verdict result ≡ length_judged (first + second) }
{
    check_length(first.min(1025) + second.min(1025))
}

// 3 of a tableau: as many marks as letters.
#[tactic(auto, using(crate::specs::Numbers::checking))]
pub fn check_marks_alike(letters: usize, marks: usize) -> Result<(), Refusal>
    ensures { said_verdict result ≡ alike_judged letters (marks ∷ []) }
{
    refuse_if(marks != letters, Refusal::Parts)
}

// 3 of a pair: as many marks, and as many entries, as letters.
#[tactic(auto, using(crate::specs::Numbers::checking))]
pub fn check_parts_alike(letters: usize, marks: usize, entries: usize) -> Result<(), Refusal>
    ensures { said_verdict result ≡ alike_judged letters (marks ∷ entries ∷ []) }
{
    refuse_if(marks != letters || entries != letters, Refusal::Parts)
}

// 3 of insertion: the used count is above none of the three lengths, each of which is looked at.
#[tactic(auto, using(crate::specs::Numbers::checking))]
pub fn check_used(used: usize, letters: usize, marks: usize, entries: usize) -> Result<(), Refusal>
    ensures { said_verdict result ≡ used_judged used (letters ∷ marks ∷ entries ∷ []) }
{
    refuse_if(
        (letters < used) | (marks < used) | (entries < used),
        Refusal::Parts,
    )
}

// 9: the move index is 1 to rank - 1.
#[tactic(auto, using(crate::specs::Numbers::checking))]
pub fn check_index(rank: usize, index: usize) -> Result<(), Refusal>
    ensures { said_verdict result ≡ index_judged rank index }
{
    refuse_if(index < 1 || rank <= index, Refusal::Index)
}

// 12: fewer than 1,024 used cells.
#[tactic(auto, using(crate::specs::Numbers::checking))]
pub fn check_full(used: usize) -> Result<(), Refusal>
    ensures { said_verdict result ≡ full_judged used }
{
    refuse_if(1024 <= used, Refusal::Full)
}

// 13: an output has room for the elements needed.
#[tactic(auto, using(crate::specs::Numbers::checking))]
pub fn check_room(need: usize, have: usize) -> Result<(), Refusal>
    ensures { said_verdict result ≡ room_judged need have }
{
    refuse_if(have < need, Refusal::Room(need))
}
