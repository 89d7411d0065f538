// The words and the streams of letters that the program brute compares with the kernel, and their pairs and tableaux by plain insertion. Nothing here is
// of the kernel, and no contract says which word is drawn or what a pair is: that is compared by running. Contracts give what callers must know to be safe.
#![tactic(auto)]

ghost use Rattle.std.specs.Prelude.{◌≡◌, ◌+◌, ◌<◌, ◌≤◌, ◌++◌, [], ◌∷◌, length, min, take};
ghost use Rattle.std.proofs.Common.{rules};
ghost use Rattle.std.specs.Cmp.Rules.{comparing};
ghost use Rattle.plain_words.specs.Equal.{same_word};

pub mod drawn;
pub mod insertion;
mod known;

use crate::drawn::{DRAWN, Generator, drawn_word};
use crate::known::{KNOWN, known_word};

// How many words there are.
pub const WORDS: usize = KNOWN + DRAWN;

// The first elements of an array, so many of them; all where there are not so many.
pub(crate) fn first<T>(elements: &[T], count: usize) -> &[T]
    ensures { result.now ≡ take count elements.now }
{
    elements.get(..count).unwrap_or(elements)
}

// A word with its rank. Its letters are the first of the array, as many as `length` says, and all 1,024 where that is more.
// Kept: an array and its length, since a word is `Copy`, and no list of the toolchain is.
#[derive(Clone, Copy, Debug)]
pub struct Word {
    pub rank: usize,
    pub length: usize,
    pub letters: [u8; 1024],
}

impl Word {
    // The word of these letters, of the first 1,024 where there are more.
    pub fn new(rank: usize, letters: &[u8]) -> Word
        ensures shape { (result.rank ≡ rank) × (result.length ≡ min (length letters.now) 1024) }
        ensures letters { take result.length result.letters ≡ take result.length letters.now }
    {
        let count = letters.len().min(1024);
        let mut all = [0; 1024];
        all[..count].copy_from_slice(&letters[..count]);
        Word {
            rank,
            length: count,
            letters: all,
        }
    }

    // The letters.
    pub fn letters(&self) -> &[u8]
        ensures first { result.now ≡ take self.now.length self.now.letters }
        ensures count { length result.now ≡ min self.now.length 1024 }
    {
        first(&self.letters, self.length)
    }

    // One more letter, where there is room.
    pub fn push(&mut self, letter: u8)
        ensures rank { self.new.rank ≡ self.old.rank }
        ensures more { self.old.length < 1024 → self.new.length ≡ self.old.length + 1 }
        ensures letters { self.old.length < 1024 → take self.new.length self.new.letters ≡ take self.old.length self.old.letters ++ letter ∷ [] }
        ensures full { 1024 ≤ self.old.length → (self.new.length ≡ self.old.length) × (self.new.letters ≡ self.old.letters) }
    {
        if self.length < 1024 {
            self.letters[self.length] = letter;
            self.length += 1;
        }
    }
}

// Words are equal where their ranks and their letters are.
impl PartialEq for Word {
    ghost eq = { same_word };

    ghost laws = { Prim.search (comparing, rules) };

    fn eq(&self, other: &Word) -> bool {
        self.rank == other.rank && self.letters() == other.letters()
    }
}

impl Eq for Word {
    ghost laws = { Prim.search (comparing, rules) };
}

// The words of document 01, and then drawn ones, by the generator.
pub fn word_of(k: usize, generator: &mut Generator) -> Word
    ensures { result.length ≤ 1024 }
{
    if k < KNOWN {
        return known_word(k);
    }
    drawn_word(k - KNOWN, generator)
}
