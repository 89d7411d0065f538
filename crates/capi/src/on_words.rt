// The C interface to words: checks, pair, junction set, moves, classes and weights. Each function is one of the kernel's, its answer as a
// struct of numbers.
ghost use Rattle.std.specs.Prelude.{◌≡◌};
ghost use Rattle.hypoplactic.specs.Insertion.{pair_with};
ghost use Rattle.outcomes.specs.Judgements.{word_judgements};
ghost use Rattle.quasi_crystal.specs.Moves.{lowering, raising};
ghost use Rattle.outcomes.specs.Replies.{first, passed};
ghost use Rattle.outcomes.specs.TableauOperations.{pair_run};
ghost use Rattle.outcomes.specs.WordOperations.{junction_says, move_word_run, repeat_word_says, same_class_says, weights_says};
ghost use Rattle.structs.specs.Replies.{class_of, count_of, done_of, junction_of, move_of, order_of, replied};

use acceptance::word::check_word;
use classes::two_words::same_class;
use operators::moves::{lower_count_word, lower_word, raise_count_word, raise_word};
use ribbons::pair::pair_of_word;
use structs::replies::{ClassReply, CountReply, DoneReply, JunctionReply, MoveReply, OrderReply};
use weights::two_words::compare_weights;
use words::junctions::junctions;

// 1, 2 and 4 of a word.
#[unsafe(no_mangle)]
pub extern "C" fn luchtrav_check_word(rank: usize, word: &[u8]) -> DoneReply
    ensures { result ≡ done_of (first (word_judgements rank word.now) passed) }
{
    DoneReply::from(check_word(rank, word))
}

// The quasi-ribbon tableau and the recording ribbon of a word, into lent letters, marks, entries and counts.
#[unsafe(no_mangle)]
pub extern "C" fn luchtrav_pair_of_word(
    rank: usize,
    word: &[u8],
    letters: &mut [u8],
    marks: &mut [u8],
    entries: &mut [u16],
    counts: &mut [u16; 64],
) -> CountReply
    ensures { (result, (pair_with letters.new marks.new entries.new, counts.new))
        ≡ replied count_of
        (pair_run
        rank
        word.now
        (pair_with letters.old marks.old entries.old)
        counts.old) }
{
    CountReply::from(pair_of_word(rank, word, letters, marks, entries, counts))
}

// The junction set of a word, and its rows.
#[unsafe(no_mangle)]
pub extern "C" fn luchtrav_junctions(rank: usize, word: &[u8]) -> JunctionReply
    ensures { result ≡ junction_of (junction_says rank word.now) }
{
    JunctionReply::from(junctions(rank, word))
}

// Raising, in the lent word.
#[unsafe(no_mangle)]
pub extern "C" fn luchtrav_raise_word(rank: usize, index: usize, word: &mut [u8]) -> MoveReply
    ensures { (result, word.new) ≡ replied move_of (move_word_run rank (record { side = raising; index = index }) word.old) }
{
    MoveReply::from(raise_word(rank, index, word))
}

// Lowering, in the lent word.
#[unsafe(no_mangle)]
pub extern "C" fn luchtrav_lower_word(rank: usize, index: usize, word: &mut [u8]) -> MoveReply
    ensures { (result, word.new) ≡ replied move_of (move_word_run rank (record { side = lowering; index = index }) word.old) }
{
    MoveReply::from(lower_word(rank, index, word))
}

// How often raising can be repeated.
#[unsafe(no_mangle)]
pub extern "C" fn luchtrav_raise_count_word(rank: usize, index: usize, word: &[u8]) -> CountReply
    ensures { result ≡ count_of (repeat_word_says rank (record { side = raising; index = index }) word.now) }
{
    CountReply::from(raise_count_word(rank, index, word))
}

// How often lowering can be repeated.
#[unsafe(no_mangle)]
pub extern "C" fn luchtrav_lower_count_word(rank: usize, index: usize, word: &[u8]) -> CountReply
    ensures { result ≡ count_of (repeat_word_says rank (record { side = lowering; index = index }) word.now) }
{
    CountReply::from(lower_count_word(rank, index, word))
}

// Whether two words are in one class.
#[unsafe(no_mangle)]
pub extern "C" fn luchtrav_same_class(
    first_rank: usize,
    first: &[u8],
    second_rank: usize,
    second: &[u8],
) -> ClassReply
    ensures { result ≡ class_of (same_class_says first_rank first.now second_rank second.now) }
{
    ClassReply::from(same_class(first_rank, first, second_rank, second))
}

// The weight of the first word against that of the second.
#[unsafe(no_mangle)]
pub extern "C" fn luchtrav_compare_weights(
    first_rank: usize,
    first: &[u8],
    second_rank: usize,
    second: &[u8],
) -> OrderReply
    ensures { result ≡ order_of (weights_says first_rank first.now second_rank second.now) }
{
    OrderReply::from(compare_weights(first_rank, first, second_rank, second))
}
