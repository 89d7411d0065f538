// The operations on the words of a class (document 02, N4): how many they are, the one with a number, and the number of one.
ghost use Rattle.std.specs.Prelude.{◌≡◌};
ghost use Rattle.numbering.specs.Operations.{class_number_says, class_size_says, class_word_run};
ghost use Rattle.refusals.specs.Said.{said_value};

use crate::checks::{check_asked, check_class, check_short};
use crate::ribbon::{held, number_in, write_word};
use lent::tableaux::CountedTableau;
use refusals::refusal::Refusal;
use ribbon_orders::orders::orders_of;
use ribbons::pair::pair_of_word;

// How many words the class of a tableau has, or the refusal of 1 to 6, 17 or 15.
#[tactic(auto, using(crate::specs::Classes::sizing))]
pub fn class_size(tableau: &CountedTableau) -> Result<u64, Refusal>
    ensures { said_value result
        ≡ class_size_says tableau.now.rank tableau.now.letters.now tableau.now.marks.now tableau.now.counts.now }
{
    check_class(tableau)?;
    // A right first step leaves as many orders as a free one.
    Ok(orders_of(tableau.marks))
}

// The word with a number of the class of a tableau, into a lent word, or the refusal of 1 to 6, 17, 15, 16 or 13, which leaves the word as it was.
#[tactic(auto, using(crate::specs::Classes::wording))]
pub fn class_word(tableau: &CountedTableau, number: u64, word: &mut [u8]) -> Result<usize, Refusal>
    ensures { (said_value result, word.new)
        ≡ class_word_run
        tableau.now.rank
        tableau.now.letters.now
        tableau.now.marks.now
        tableau.now.counts.now
        number
        word.old }
{
    check_class(tableau)?;
    let size = orders_of(tableau.marks);
    let cells = tableau.letters.len();
    check_asked(number, size, cells, word.len())?;
    // Nothing stands before the first cell, so the step into it is free.
    let mut open = held(tableau.marks);
    open[0] = 2;
    write_word(held(tableau.letters), open, cells, number, word);
    Ok(cells)
}

// The number of a word in its own class, or the refusal of 1, 2, 4 or 15.
#[tactic(auto, using(crate::specs::Classes::telling))]
pub fn class_number(rank: usize, word: &[u8]) -> Result<u64, Refusal>
    ensures { said_value result ≡ class_number_says rank word.now }
{
    check_short(rank, word)?;
    let mut letters = [0u8; 20];
    let mut marks = [0u8; 20];
    let mut entries = [0u16; 20];
    let mut counts = [0u16; 64];
    // The checks have passed, and there is room for 20 cells, so nothing is refused.
    let _ = pair_of_word(
        rank,
        word,
        &mut letters,
        &mut marks,
        &mut entries,
        &mut counts,
    );
    // The step into the first cell is free.
    marks[0] = 2;
    Ok(number_in(letters, marks, word))
}
