// Chains of checks: the first refusal, in the order of the checks.
ghost use Rattle.std.specs.Prelude.{◌≡◌, [], ◌∷◌};
ghost use Rattle.outcomes.specs.Replies.{first, passed};
ghost use Rattle.outcomes.specs.Judgements.{length_judged, pair_rooms, rank_judged};
ghost use Rattle.refusals.specs.Said.{said_verdict};

use crate::numbers::{check_length, check_rank, check_room};
use crate::refusal::Refusal;

// 1 and 2: the limits of a word, a tableau or a pair.
pub fn check_limits(rank: usize, length: usize) -> Result<(), Refusal>
    ensures { said_verdict result ≡ first (rank_judged rank ∷ length_judged length ∷ []) passed }
{
    check_rank(rank)?;
    check_length(length)
}

// 13 of the three lent lists of a pair, in the order letters, marks, entries.
pub fn check_pair_rooms(
    need: usize,
    letters: usize,
    marks: usize,
    entries: usize,
) -> Result<(), Refusal>
    ensures { said_verdict result ≡ first (pair_rooms need letters marks entries) passed }
{
    check_room(need, letters)?;
    check_room(need, marks)?;
    check_room(need, entries)
}
