// The calls that write into letters, marks, entries and counts of a pair. What is lent is printed after the call.
use crate::calls::{FIRST, OTHER};
use arrayvec::ArrayVec;
use departures::departure::remove_oldest;
use notation::answers::print_answer;
use notation::arguments::Arguments;
use notation::printing::{print_counts, print_list};
use pairs::insertion::insert_letter;
use readers::pair::read_pair_line;
use ribbons::pair::pair_of_word;
use std::io;

// What is lent.
#[derive(Drop)]
struct Lent {
    letters: ArrayVec<u8, OTHER>,
    marks: ArrayVec<u8, OTHER>,
    entries: ArrayVec<u16, OTHER>,
    counts: [u16; 64],
}

impl Lent {
    // The next arguments.
    fn of(call: &mut Arguments<'_>) -> Lent {
        Lent {
            letters: call.bytes(OTHER),
            marks: call.bytes(OTHER),
            entries: call.entries(OTHER),
            counts: call.counts(),
        }
    }

    // After the call.
    fn print(&self, rt: &impl Print) -> io::Result<()> {
        print_list(rt, &self.letters)?;
        print_list(rt, &self.marks)?;
        print_list(rt, &self.entries)?;
        print_counts(rt, &self.counts)
    }
}

// A P line read.
pub(crate) fn read_pair(rt: &impl Print, mut call: Arguments<'_>) -> io::Result<()> {
    let line = call.text::<FIRST>(FIRST);
    let mut lent = Lent::of(&mut call);
    print_answer(
        rt,
        read_pair_line(
            &line,
            &mut lent.letters,
            &mut lent.marks,
            &mut lent.entries,
            &mut lent.counts,
        ),
    )?;
    lent.print(rt)
}

// The pair of a word.
pub(crate) fn insert_word(rt: &impl Print, mut call: Arguments<'_>) -> io::Result<()> {
    let rank = call.number();
    let word = call.bytes::<FIRST>(FIRST);
    let mut lent = Lent::of(&mut call);
    print_answer(
        rt,
        pair_of_word(
            rank,
            &word,
            &mut lent.letters,
            &mut lent.marks,
            &mut lent.entries,
            &mut lent.counts,
        ),
    )?;
    lent.print(rt)
}

// A letter inserted: the third number of the line.
pub(crate) fn insert(rt: &impl Print, mut call: Arguments<'_>) -> io::Result<()> {
    let rank = call.number();
    let used = call.number();
    let letter = call.number();
    let mut lent = Lent::of(&mut call);
    print_answer(
        rt,
        insert_letter(
            rank,
            used,
            letter,
            &mut lent.letters,
            &mut lent.marks,
            &mut lent.entries,
            &mut lent.counts,
        ),
    )?;
    lent.print(rt)
}

// The oldest letter removed.
pub(crate) fn remove(rt: &impl Print, mut call: Arguments<'_>) -> io::Result<()> {
    let rank = call.number();
    let used = call.number();
    let mut lent = Lent::of(&mut call);
    print_answer(
        rt,
        remove_oldest(
            rank,
            used,
            &mut lent.letters,
            &mut lent.marks,
            &mut lent.entries,
            &mut lent.counts,
        ),
    )?;
    lent.print(rt)
}
