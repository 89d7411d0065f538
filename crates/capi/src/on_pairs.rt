// The C interface to pairs of a tableau and a recording ribbon: checks, one letter inserted, the oldest one removed, the way back. Each function is one of the
// kernel's, its answer as a struct of numbers.
ghost use Rattle.std.specs.Prelude.{◌≡◌};
ghost use Rattle.hypoplactic.specs.Insertion.{pair_with};
ghost use Rattle.outcomes.specs.Judgements.{counted_pair_judgements, pair_judgements};
ghost use Rattle.outcomes.specs.Replies.{first, passed};
ghost use Rattle.outcomes.specs.TableauOperations.{insert_run, word_run};
ghost use Rattle.structs.specs.Replies.{count_of, done_of, replied};
ghost use Rattle.windows.specs.Departures.{depart_run};

use departures::departure::remove_oldest;
use inverses::way_back::word_of_pair;
use lent::tableaux::{CountedPair, Pair};
use pairs::insertion::insert_letter;
use structs::replies::{CountReply, DoneReply};
use validity::counted::check_counted_pair;
use validity::tableau::check_pair;

// 1 to 8 of a pair.
#[unsafe(no_mangle)]
pub extern "C" fn luchtrav_check_pair(
    rank: usize,
    letters: &[u8],
    marks: &[u8],
    entries: &[u16],
) -> DoneReply
    ensures { result ≡ done_of (first (pair_judgements rank letters.now marks.now entries.now) passed) }
{
    let pair = Pair {
        rank,
        letters,
        marks,
        entries,
    };
    DoneReply::from(check_pair(&pair))
}

// 1 to 6 of a pair, 17 of its letter counts, 7 and 8.
#[unsafe(no_mangle)]
pub extern "C" fn luchtrav_check_counted_pair(
    rank: usize,
    letters: &[u8],
    marks: &[u8],
    entries: &[u16],
    counts: &[u16; 64],
) -> DoneReply
    ensures { result
        ≡ done_of
        (first (counted_pair_judgements rank letters.now marks.now entries.now counts.now) passed) }
{
    let pair = CountedPair {
        rank,
        letters,
        marks,
        entries,
        counts,
    };
    DoneReply::from(check_counted_pair(&pair))
}

// One letter into the pair in the first cells of three lent lists, and its count into the lent counts.
#[unsafe(no_mangle)]
pub extern "C" fn luchtrav_insert_letter(
    rank: usize,
    used: usize,
    letter: usize,
    letters: &mut [u8],
    marks: &mut [u8],
    entries: &mut [u16],
    counts: &mut [u16; 64],
) -> CountReply
    ensures { (result, (pair_with letters.new marks.new entries.new, counts.new))
        ≡ replied count_of
        (insert_run
        rank
        used
        letter
        (pair_with letters.old marks.old entries.old)
        counts.old) }
{
    CountReply::from(insert_letter(rank, used, letter, letters, marks, entries, counts))
}

// The oldest letter leaves the window in the first cells of three lent lists, and the lent counts.
#[unsafe(no_mangle)]
pub extern "C" fn luchtrav_remove_oldest(
    rank: usize,
    used: usize,
    letters: &mut [u8],
    marks: &mut [u8],
    entries: &mut [u16],
    counts: &mut [u16; 64],
) -> CountReply
    ensures { (result, (pair_with letters.new marks.new entries.new, counts.new))
        ≡ replied count_of
        (depart_run rank used (pair_with letters.old marks.old entries.old) counts.old) }
{
    CountReply::from(remove_oldest(rank, used, letters, marks, entries, counts))
}

// The word of a pair, into a lent word.
#[unsafe(no_mangle)]
pub extern "C" fn luchtrav_word_of_pair(
    rank: usize,
    letters: &[u8],
    marks: &[u8],
    entries: &[u16],
    counts: &[u16; 64],
    word: &mut [u8],
) -> CountReply
    ensures { (result, word.new)
        ≡ replied count_of (word_run rank letters.now marks.now entries.now counts.now word.old) }
{
    let pair = CountedPair {
        rank,
        letters,
        marks,
        entries,
        counts,
    };
    CountReply::from(word_of_pair(&pair, word))
}
