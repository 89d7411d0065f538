// Sizes and numbers of classes (document 02, N4) held to plain insertion: all words of at most 6 letters over 1 to 3 are inserted in the order of their
// numbers, which is dictionary order among words of one length. The number of a word is how many words before it have its tableau, the size of its class
// how many words have it at all; words of other lengths never have it.
ghost use Rattle.std.specs.Prelude.{◌<◌};

use crate::comparing::{Comparison, Fault};
use crate::kernel::{lent, written};
use crate::short_words::{SHORT, short_word};
use class_numbers::classes::{class_number, class_size, class_word};
use plain_words::Word;
use plain_words::insertion::{Tableau, plain_tableau};
use std::array;

// The number of a word in its class, the size of the class, and the word that the class gives back by that number.
#[derive(Clone, Copy, Debug, PartialEq, Eq)]
struct Numbered {
    number: u64,
    size: u64,
    word: Word,
}

// A tableau of at most 6 cells over 1 to 3 as one number: after a 1, two bits for the letter of each cell and one for its mark.
fn tableau_number(tableau: &Tableau) -> u64 {
    let cells = tableau.letters().iter().zip(tableau.marks());
    cells.fold(1u64, |number, (letter, mark)| {
        (number << 3) | (u64::from(*letter) << 1) | u64::from(*mark)
    })
}

// The tableaux of all these words, in their order.
pub(crate) fn short_tableaux() -> [u64; SHORT] {
    array::from_fn(|k| tableau_number(&plain_tableau(&short_word(k))))
}

// How many of some words have a tableau.
fn count_of(tableau: u64, tableaux: &[u64]) -> u64 {
    tableaux.iter().filter(|other| **other == tableau).count() as u64
}

// The answer for one of these words.
fn plain_numbered(k: usize, tableaux: &[u64; SHORT]) -> Numbered
    requires { k < SHORT }
{
    Numbered {
        number: count_of(tableaux[k], &tableaux[..k]),
        size: count_of(tableaux[k], tableaux),
        word: short_word(k),
    }
}

// The kernel's answer for a word, of whose class the word with a number is asked for.
fn kernel_numbered(number: u64, k: usize) -> Result<Numbered, Fault> {
    let word = short_word(k);
    let tableau = plain_tableau(&word);
    let tableau = lent(&tableau);
    let mut letters = [0; 1024];
    let count = class_word(&tableau, number, &mut letters)?;
    Ok(Numbered {
        number: class_number(3, word.letters())?,
        size: class_size(&tableau)?,
        word: Word::new(3, written(&letters, count)?),
    })
}

// Four answers are spoilt for 312, the second and last word of its class: number, size, count of letters and letters.
pub(crate) fn spoil_classes(classes: &mut Comparison, tableaux: &[u64; SHORT]) {
    let Ok(told) = kernel_numbered(1, 32) else {
        return;
    };
    let own = || plain_numbered(32, tableaux);
    classes.spoil(own(), &told, |numbered| numbered.number = 5000);
    classes.spoil(own(), &told, |numbered| numbered.size = 5000);
    classes.spoil(own(), &told, |numbered| numbered.word.length = 0);
    classes.spoil(own(), &told, |numbered| numbered.word.letters[0] = 200);
}

// One of these words.
pub(crate) fn compare_class(classes: &mut Comparison, k: usize, tableaux: &[u64; SHORT])
    requires { k < SHORT }
{
    let own = plain_numbered(k, tableaux);
    let told = kernel_numbered(own.number, k);
    classes.compare(&Ok(own), &told);
    classes.count_one();
}
