// The letters of a tableau that a down step leads out of, as a table of 64 tests.
ghost use Rattle.std.specs.Prelude.{◌≡◌, length};
ghost use Rattle.hypoplactic.specs.Junctions.{down_out};
ghost use Rattle.hypoplactic.specs.Words.{Within};
ghost use Rattle.multiplication.specs.Downs.{Flags};

// The table of a tableau: the step into each cell from the second on leads out of the letter before it.
#[tactic(auto, using(crate::specs::Downs::stepping))]
pub(crate) fn downs_of(letters: &[u8], marks: &[u8]) -> [bool; 64]
    requires { Within 64 letters.now × (length marks.now ≡ length letters.now) }
    ensures { Flags (λ a. down_out a letters.now marks.now) result }
{
    let mut downs = [false; 64];
    for i in 1..letters.len() {
        downs[usize::from(letters[i - 1]) - 1] |= marks[i] == 1;
    }
    downs
}
