// What the kernel writes, and pairs in its memory with the calls on them. Arrays of 1,024 elements are lent whole.
ghost use Rattle.std.specs.Prelude.{◌≡◌, ◌≤◌, IfOk, length};

use crate::comparing::Fault;
use departures::departure::remove_oldest;
use lent::tableaux::{CountedPair, CountedTableau};
use pairs::insertion::insert_letter;
use plain_words::Word;
use plain_words::insertion::{Pair, Tableau};
use refusals::refusal::Refusal;
use ribbons::pair::pair_of_word;

// The first elements of memory, so many as the kernel tells.
fn told<T>(memory: &[T; 1024], count: usize) -> Result<&[T], Fault>
    ensures { IfOk result (λ v. (length v.now ≡ count) × (length v.now ≤ 1024)) }
{
    memory.get(..count).ok_or(Fault::Count(count))
}

// The same of memory that was blank before, and is after them.
pub(crate) fn written<T: Copy + Default + PartialEq>(
    memory: &[T; 1024],
    count: usize,
) -> Result<&[T], Fault>
    ensures { IfOk result (λ v. (length v.now ≡ count) × (length v.now ≤ 1024)) }
{
    match memory.iter().rposition(|element| *element != T::default()) {
        Some(last) if count <= last => Err(Fault::Beyond(last)),
        _ => told(memory, count),
    }
}

// A tableau as it is lent.
pub(crate) fn lent(tableau: &Tableau) -> CountedTableau<'_> {
    CountedTableau {
        rank: tableau.rank,
        letters: tableau.letters(),
        marks: tableau.marks(),
        counts: &tableau.counts,
    }
}

// A pair as it is lent.
pub(crate) fn lent_pair(pair: &Pair) -> CountedPair<'_> {
    CountedPair {
        rank: pair.tableau.rank,
        letters: pair.tableau.letters(),
        marks: pair.tableau.marks(),
        entries: pair.entries(),
        counts: &pair.tableau.counts,
    }
}

// The pair of a word, made at once.
pub(crate) fn pair_at_once(word: &Word) -> Result<Pair, Fault> {
    let mut letters = [0; 1024];
    let mut marks = [0; 1024];
    let mut entries = [0; 1024];
    let mut counts = [65535; 64];
    let count = pair_of_word(
        word.rank,
        word.letters(),
        &mut letters,
        &mut marks,
        &mut entries,
        &mut counts,
    )?;
    written(&letters, count)?;
    written(&marks, count)?;
    written(&entries, count)?;
    Ok(Pair {
        tableau: Tableau {
            rank: word.rank,
            length: count,
            letters,
            marks,
            counts,
        },
        entries,
    })
}

// A pair in memory, of which so many cells are used, and how many replies were wrong.
#[derive(Drop)]
pub(crate) struct Memory {
    rank: usize,
    used: usize,
    letters: [u8; 1024],
    marks: [u8; 1024],
    entries: [u16; 1024],
    counts: [u16; 64],
    wrong: usize,
}

impl Memory {
    // The pair without a cell.
    pub(crate) fn new(rank: usize) -> Memory
        ensures { (result.rank ≡ rank) × (result.used ≡ 0) }
    {
        Memory {
            rank,
            used: 0,
            letters: [0; 1024],
            marks: [0; 1024],
            entries: [0; 1024],
            counts: [0; 64],
            wrong: 0,
        }
    }

    // So many cells are used now, and the reply should tell it.
    fn use_cells(&mut self, used: usize, reply: Result<usize, Refusal>) {
        self.used = used;
        if reply != Ok(used) {
            self.wrong = self.wrong.wrapping_add(1);
        }
    }

    // A letter comes into the pair.
    pub(crate) fn arrive(&mut self, letter: u8) {
        let reply = insert_letter(
            self.rank,
            self.used,
            usize::from(letter),
            &mut self.letters,
            &mut self.marks,
            &mut self.entries,
            &mut self.counts,
        );
        self.use_cells(self.used.wrapping_add(1), reply);
    }

    // The oldest letter leaves a pair that has one.
    pub(crate) fn depart(&mut self) {
        let reply = remove_oldest(
            self.rank,
            self.used,
            &mut self.letters,
            &mut self.marks,
            &mut self.entries,
            &mut self.counts,
        );
        self.use_cells(self.used.wrapping_sub(1), reply);
    }

    // The cells that are used, if no reply was wrong.
    pub(crate) fn pair(&self) -> Result<Pair, Fault> {
        if 0 < self.wrong {
            return Err(Fault::Replies(self.wrong));
        }
        told(&self.letters, self.used)?;
        Ok(Pair {
            tableau: Tableau {
                rank: self.rank,
                length: self.used,
                letters: self.letters,
                marks: self.marks,
                counts: self.counts,
            },
            entries: self.entries,
        })
    }
}

// The pair of a word, its letters inserted one after the other.
pub(crate) fn pair_by_letters(word: &Word) -> Result<Pair, Fault> {
    let mut memory = Memory::new(word.rank);
    for letter in word.letters() {
        memory.arrive(*letter);
    }
    written(&memory.letters, memory.used)?;
    written(&memory.marks, memory.used)?;
    written(&memory.entries, memory.used)?;
    memory.pair()
}
