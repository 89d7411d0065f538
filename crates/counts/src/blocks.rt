// The first pass of the check 17, 64 steps for a tableau with true counts: letters that rise are cut into blocks as long as the counts say, of which only
// the first and the last letter are looked at.
ghost use Rattle.std.specs.Prelude.{◌≡◌};
ghost use Rattle.outcomes.specs.Judgements.{rising_judged};
ghost use Rattle.outcomes.specs.Replies.{passed};
ghost use Rattle.counts.specs.Blocks.{Block, Confirmed};

// Whether the letters from one place up to another are there, and begin and end with a letter, where there are any. Most counts are 0: that is asked first.
fn block_agrees(letters: &[u8], at: usize, end: usize, letter: usize) -> bool
    ensures { Block letters.now at end letter result }
{
    end <= at
        || (end <= letters.len()
            && usize::from(letters[at]) == letter
            && usize::from(letters[end - 1]) == letter)
}

// Whether the blocks that the counts cut off rising letters agree and use up all letters. Then every count is true; else nothing is said.
#[tactic(auto, using(crate::specs::Blocks::agreeing))]
pub(crate) fn confirmed(letters: &[u8], counts: &[u16; 64]) -> bool
    requires { rising_judged letters.now ≡ passed }
    ensures { Confirmed letters.now counts.now result }
{
    let mut at = 0;
    for (a, count) in counts.iter().enumerate() {
        let end = at + usize::from(*count);
        if !block_agrees(letters, at, end, a + 1) {
            return false;
        }
        at = end;
    }
    at == letters.len()
}
