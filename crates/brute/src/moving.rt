// The kernel's moves and repeat counts on words and on tableaux.
use crate::kernel::lent;
use crate::scanning::Moved;
use operators::changes::Side;
use operators::moves::{move_word, repeat_word};
use plain_words::Word;
use plain_words::insertion::Tableau;
use tableaux::moves::{move_tableau, repeat_tableau};

// A move on a word.
pub(crate) fn word_moved(side: Side, index: usize, word: &Word) -> Moved<Word> {
    let letters = word.letters();
    let mut after = *word;
    Moved {
        times: repeat_word(side, word.rank, index, letters),
        place: move_word(side, word.rank, index, &mut after.letters[..letters.len()]),
        after,
    }
}

// A move on a tableau.
pub(crate) fn tableau_moved(side: Side, index: usize, tableau: &Tableau) -> Moved<Tableau> {
    let marks = tableau.marks();
    let mut after = *tableau;
    Moved {
        times: repeat_tableau(side, index, &lent(tableau)),
        place: move_tableau(
            side,
            tableau.rank,
            index,
            &mut after.letters[..marks.len()],
            marks,
            &mut after.counts,
        ),
        after,
    }
}
