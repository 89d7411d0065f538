// The C interface to the words of a class: their number, the word with a number, the number of a word. Each function is one of the kernel's, its answer as a
// struct of numbers.
ghost use Rattle.std.specs.Prelude.{◌≡◌};
ghost use Rattle.numbering.specs.Operations.{class_number_says, class_size_says, class_word_run};
ghost use Rattle.structs.specs.Replies.{count_of, replied, value_of};

use class_numbers::classes::{class_number, class_size, class_word};
use lent::tableaux::CountedTableau;
use structs::replies::{CountReply, ValueReply};

// How many words have a tableau.
#[unsafe(no_mangle)]
pub extern "C" fn luchtrav_class_size(
    rank: usize,
    letters: &[u8],
    marks: &[u8],
    counts: &[u16; 64],
) -> ValueReply
    ensures { result ≡ value_of (class_size_says rank letters.now marks.now counts.now) }
{
    let tableau = CountedTableau {
        rank,
        letters,
        marks,
        counts,
    };
    ValueReply::from(class_size(&tableau))
}

// The word with a number, of those that have a tableau, into a lent word.
#[unsafe(no_mangle)]
pub extern "C" fn luchtrav_class_word(
    rank: usize,
    letters: &[u8],
    marks: &[u8],
    counts: &[u16; 64],
    number: u64,
    word: &mut [u8],
) -> CountReply
    ensures { (result, word.new)
        ≡ replied count_of (class_word_run rank letters.now marks.now counts.now number word.old) }
{
    let tableau = CountedTableau {
        rank,
        letters,
        marks,
        counts,
    };
    CountReply::from(class_word(&tableau, number, word))
}

// The number of a word, of those that have its tableau.
#[unsafe(no_mangle)]
pub extern "C" fn luchtrav_class_number(rank: usize, word: &[u8]) -> ValueReply
    ensures { result ≡ value_of (class_number_says rank word.now) }
{
    ValueReply::from(class_number(rank, word))
}
