// The shape of a tableau and its letter counts: 5, 6 and 17 in one, so that letters which 5 has passed are not looked through for it again.
ghost use Rattle.std.specs.Prelude.{[], ◌∷◌, ◌≡◌};
ghost use Rattle.outcomes.specs.Counts.{counts_judged};
ghost use Rattle.outcomes.specs.Judgements.{marks_judged, rising_judged};
ghost use Rattle.outcomes.specs.Replies.{first, passed};
ghost use Rattle.refusals.specs.Said.{said_verdict};

use crate::check::check_rising_counts;
use refusals::refusal::Refusal;
use shapes::marks::check_marks;
use shapes::rising::check_rising;

// 5, 6 and 17.
pub fn check_counted_shape(letters: &[u8], marks: &[u8], counts: &[u16; 64]) -> Result<(), Refusal>
    ensures { said_verdict result
        ≡ first
        (rising_judged letters.now ∷ marks_judged letters.now marks.now
        ∷ counts_judged counts.now letters.now ∷ [])
        passed }
{
    check_rising(letters)?;
    check_marks(letters, marks)?;
    check_rising_counts(letters, counts)
}
