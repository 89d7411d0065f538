// The calls that write into one list of bytes: moves of a word, a W line read, and those that write a line or a word. What is lent is printed after the call, as
// a text where a line is written.
use crate::calls::{FIRST, OTHER, SECOND};
use crate::given::{Given, GivenPair};
use class_numbers::classes::class_word;
use columns::reading::column_reading;
use conversions::former::convert_lines;
use inverses::way_back::word_of_pair;
use lent::tableaux::{Pair, Tableau};
use notation::answers::print_answer;
use notation::arguments::Arguments;
use notation::printing::{print_list, print_text};
use refusals::refusal::Refusal;
use std::io;
use word_readers::word::read_word_line;
use writers::line::write_pair_line;

// A move on a word.
pub(crate) fn change_word<F: Fn(usize, usize, &mut [u8]) -> Result<usize, Refusal>>(
    rt: &impl Print,
    mut call: Arguments<'_>,
    change: F,
) -> io::Result<()>
    requires { F.IsAlwaysCallable change }
{
    let rank = call.number();
    let index = call.number();
    let mut word = call.bytes::<OTHER>(OTHER);
    print_answer(rt, change(rank, index, &mut word))?;
    print_list(rt, &word)
}

// A W line read.
pub(crate) fn read_word(rt: &impl Print, mut call: Arguments<'_>) -> io::Result<()> {
    let line = call.text::<FIRST>(FIRST);
    let mut word = call.bytes::<OTHER>(OTHER);
    print_answer(rt, read_word_line(&line, &mut word))?;
    print_list(rt, &word)
}

// A line of a word.
pub(crate) fn write_word<F: Fn(usize, &[u8], &mut [u8]) -> Result<usize, Refusal>>(
    rt: &impl Print,
    mut call: Arguments<'_>,
    write: F,
) -> io::Result<()>
    requires { F.IsAlwaysCallable write }
{
    let rank = call.number();
    let word = call.bytes::<FIRST>(FIRST);
    let mut line = call.bytes::<OTHER>(OTHER);
    print_answer(rt, write(rank, &word, &mut line))?;
    print_text(rt, &line)
}

// A line of another line.
pub(crate) fn convert_line<F: Fn(&[u8], &mut [u8]) -> Result<usize, Refusal>>(
    rt: &impl Print,
    mut call: Arguments<'_>,
    convert: F,
) -> io::Result<()>
    requires { F.IsAlwaysCallable convert }
{
    let given = call.text::<FIRST>(FIRST);
    let mut line = call.bytes::<OTHER>(OTHER);
    print_answer(rt, convert(&given, &mut line))?;
    print_text(rt, &line)
}

// A line of two lines.
pub(crate) fn convert_two(rt: &impl Print, mut call: Arguments<'_>) -> io::Result<()> {
    let tableau = call.text::<FIRST>(FIRST);
    let recording = call.text::<SECOND>(SECOND);
    let mut line = call.bytes::<OTHER>(OTHER);
    print_answer(rt, convert_lines(&tableau, &recording, &mut line))?;
    print_text(rt, &line)
}

// A line of a tableau.
pub(crate) fn write_tableau<F: Fn(&Tableau<'_>, &mut [u8]) -> Result<usize, Refusal>>(
    rt: &impl Print,
    mut call: Arguments<'_>,
    write: F,
) -> io::Result<()>
    requires { F.IsAlwaysCallable write }
{
    let rank = call.number();
    let letters = call.bytes::<FIRST>(FIRST);
    let marks = call.bytes::<SECOND>(SECOND);
    let mut line = call.bytes::<OTHER>(OTHER);
    let tableau = Tableau {
        rank,
        letters: &letters,
        marks: &marks,
    };
    print_answer(rt, write(&tableau, &mut line))?;
    print_text(rt, &line)
}

// The line of a pair.
pub(crate) fn write_pair(rt: &impl Print, mut call: Arguments<'_>) -> io::Result<()> {
    let rank = call.number();
    let letters = call.bytes::<FIRST>(FIRST);
    let marks = call.bytes::<SECOND>(SECOND);
    let entries = call.entries::<OTHER>(OTHER);
    let mut line = call.bytes::<OTHER>(OTHER);
    let pair = Pair {
        rank,
        letters: &letters,
        marks: &marks,
        entries: &entries,
    };
    print_answer(rt, write_pair_line(&pair, &mut line))?;
    print_text(rt, &line)
}

// The column reading of a tableau.
pub(crate) fn read_column(rt: &impl Print, mut call: Arguments<'_>) -> io::Result<()> {
    let rank = call.number();
    let given = Given::first(&mut call);
    let mut word = call.bytes::<OTHER>(OTHER);
    print_answer(rt, column_reading(&given.at(rank), &mut word))?;
    print_list(rt, &word)
}

// The word of a pair.
pub(crate) fn word_back(rt: &impl Print, mut call: Arguments<'_>) -> io::Result<()> {
    let rank = call.number();
    let given = GivenPair::first(&mut call);
    let mut word = call.bytes::<OTHER>(OTHER);
    print_answer(rt, word_of_pair(&given.at(rank), &mut word))?;
    print_list(rt, &word)
}

// The word of a class by its number, which is the second.
pub(crate) fn word_by_number(rt: &impl Print, mut call: Arguments<'_>) -> io::Result<()> {
    let rank = call.number();
    let number = call.number() as u64;
    let given = Given::first(&mut call);
    let mut word = call.bytes::<OTHER>(OTHER);
    print_answer(rt, class_word(&given.at(rank), number, &mut word))?;
    print_list(rt, &word)
}
