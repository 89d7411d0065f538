// The words that document 01 names, each with its rank.
ghost use Rattle.std.specs.Prelude.{◌≤◌, length};

use crate::Word;

// How many words there are.
pub(crate) const KNOWN: usize = 18;

// A rank and letters: document 01, "Checked words", in its order, then those of "Strength of the contracts" and "Where implementers stumble".
fn named(k: usize) -> (usize, &'static [u8])
    ensures { length result.1.now ≤ 1024 }
{
    match k {
        0 => (4, &[4, 3, 2, 3]),
        1 => (7, &[1, 2, 4, 4, 6, 5, 5, 3, 2, 7, 5]),
        2 => (4, &[]),
        3 => (4, &[4, 3, 3]),
        4 => (4, &[3, 4, 3]),
        5 => (6, &[2, 4, 3, 2, 4, 5, 5, 6, 5]),
        6 => (3, &[3, 1, 1, 3]),
        7 => (3, &[3, 1, 2, 3]),
        8 => (3, &[3, 1, 3, 1]),
        9 => (3, &[2, 1, 3, 1]),
        10 => (3, &[3, 1]),
        11 => (3, &[2, 1]),
        12 => (4, &[3, 2, 4, 3]),
        13 => (4, &[2, 3, 3, 4]),
        14 => (6, &[5, 4, 2, 1, 6, 4, 3, 2, 5, 2, 2, 4]),
        15 => (6, &[4, 3, 2, 1, 4, 3, 2, 1, 2, 1, 1, 1]),
        16 => (2, &[1, 2]),
        _ => (3, &[3, 3]),
    }
}

// The word of a number.
pub(crate) fn known_word(k: usize) -> Word
    ensures { result.length ≤ 1024 }
{
    let (rank, letters) = named(k);
    Word::new(rank, letters)
}
