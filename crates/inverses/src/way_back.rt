// Pair back to word (document 01, "What the kernel does"): the letter of the cell with entry e goes to place e - 1. The pair is judged, then one pass over
// the cells stores each letter at the place that its entry tells.
ghost use Rattle.std.specs.Prelude.{◌≡◌, [], ◌∷◌, length};
ghost use Rattle.hypoplactic.specs.Insertion.{word_of};
ghost use Rattle.outcomes.specs.Judgements.{counted_pair_judgements, room_judged};
ghost use Rattle.outcomes.specs.Replies.{written};
ghost use Rattle.outcomes.specs.TableauOperations.{word_run};
ghost use Rattle.refusals.specs.Running.{checks_then};
ghost use Rattle.refusals.specs.Said.{said_verdict, said_value};
ghost use Rattle.inverses.specs.Recorded.{Recorded};

use lent::tableaux::CountedPair;
use refusals::numbers::check_room;
use refusals::refusal::Refusal;
use validity::counted::check_counted_pair;

// 1 to 6 of the pair, 17 of its letter counts, 7 and 8, and 13: room for as many letters as it has cells.
#[tactic(auto, unfolding(refusals::specs::Running::checks_then))]
fn check_way_back(pair: &CountedPair, room: usize) -> Result<(), Refusal>
    ensures { said_verdict result
        ≡ checks_then
        (counted_pair_judgements pair.now.rank pair.now.letters.now pair.now.marks.now pair.now.entries.now pair.now.counts.now)
        (room_judged (length pair.now.letters.now) room ∷ []) }
{
    check_counted_pair(pair)?;
    check_room(pair.letters.len(), room)
}

// The letter of each cell at its place in the lent word. The entry of a cell tells its place: places count from 0, entries from 1.
#[tactic(auto, using(crate::specs::WayBack::going_back))]
fn write_word(letters: &[u8], entries: &[u16], word: &mut [u8])
    requires { Recorded letters.now entries.now (length word.old) }
    ensures { word.new ≡ written (word_of letters.now entries.now) word.old }
{
    // Kept: entries by the index of their letters' pass: a zip moves two places a turn, and the whole operation then costs 16 to 22 percent more.
    for (cell, &letter) in letters.iter().enumerate() {
        word[usize::from(entries[cell]) - 1] = letter;
    }
}

// Pair back to word, the pair with its letter counts, into the lent word; what stands in it beyond the letters keeps its value.
#[tactic(auto, using(crate::specs::WayBack::going_back))]
pub fn word_of_pair(pair: &CountedPair, word: &mut [u8]) -> Result<usize, Refusal>
    ensures { (said_value result, word.new)
        ≡ word_run pair.now.rank pair.now.letters.now pair.now.marks.now pair.now.entries.now pair.now.counts.now word.old }
{
    check_way_back(pair, word.len())?;
    write_word(pair.letters, pair.entries, word);
    Ok(pair.letters.len())
}
