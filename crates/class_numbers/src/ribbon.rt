// A tableau of at most 20 cells as a ribbon whose cells are taken out one by one: the word with a number, and the number of a word.
ghost use Rattle.std.specs.Prelude.{◌≤◌, ◌≡◌, length, take};
ghost use Rattle.outcomes.specs.Replies.{written};
ghost use Rattle.numbering.specs.Orders.{place_of, word_at};
ghost use Rattle.class_numbers.specs.Held.{Holds};
ghost use Rattle.class_numbers.specs.NumberFound.{Placed};

use buffers::copies::copy;
use taken_cells::first::{cell_of_letter, cell_of_number};
use taken_cells::removal::{pulled, pulled_free};

// Bytes at the beginning of 20.
pub(crate) fn held(bytes: &[u8]) -> [u8; 20]
    ensures { Holds bytes.now result }
{
    let mut out = [0u8; 20];
    copy(bytes, &mut out);
    out
}

// The word with a number of the ribbon in the first cells, into a lent word. Its letters are found one by one; where no word has the number, none is.
#[tactic(auto, using(crate::specs::WordWritten::writing))]
pub(crate) fn write_word(
    letters: [u8; 20],
    marks: [u8; 20],
    cells: usize,
    number: u64,
    word: &mut [u8],
)
    requires { (cells ≤ 20) × (cells ≤ length word.old) }
    ensures { word.new ≡ written (word_at cells (take cells letters) (take cells marks) number) word.old }
{
    let mut ys = letters;
    let mut ms = marks;
    let mut left = number;
    let mut n = cells;
    for i in 0..cells {
        let next = cell_of_number(ms, n, left);
        if n <= next.cell {
            return;
        }
        word[i] = ys[next.cell];
        n -= 1;
        // Kept: two steps, for a call's result laid into the array that the call reads gets no proof.
        let letters_left = pulled(ys, next.cell, n);
        let marks_left = pulled_free(ms, next.cell, n);
        ys = letters_left;
        ms = marks_left;
        left = next.number;
    }
}

// The number of a word among those of the ribbon in the first cells, as many as it has letters.
#[tactic(auto, using(crate::specs::NumberFound::finding))]
pub(crate) fn number_in(letters: [u8; 20], marks: [u8; 20], word: &[u8]) -> u64
    requires { Placed word.now letters marks }
    ensures { result ≡ place_of word.now (take (length word.now) letters) (take (length word.now) marks) }
{
    let mut ys = letters;
    let mut ms = marks;
    let mut number: u64 = 0;
    let mut n = word.len();
    for letter in word {
        let next = cell_of_letter(ys, ms, n, *letter);
        if n <= next.cell {
            return number + next.number;
        }
        n -= 1;
        let letters_left = pulled(ys, next.cell, n);
        let marks_left = pulled_free(ms, next.cell, n);
        ys = letters_left;
        ms = marks_left;
        number += next.number;
    }
    number
}
