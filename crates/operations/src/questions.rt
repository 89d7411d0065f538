// The calls that change no memory: questions about words, about one tableau, and about two.
use crate::calls::{FIRST, SECOND};
use crate::given::{Given, GivenPair};
use lent::tableaux::CountedTableau;
use notation::answers::{Values, print_answer};
use notation::arguments::Arguments;
use refusals::refusal::Refusal;
use std::io;
use validity::counted::check_counted_pair;
use viewer::viewers::look_once;

// A question about a word.
pub(crate) fn one_word<T: Values + Drop, F: Fn(usize, &[u8]) -> Result<T, Refusal>>(
    rt: &impl Print,
    mut call: Arguments<'_>,
    ask: F,
) -> io::Result<()>
    requires { F.IsAlwaysCallable ask }
{
    let rank = call.number();
    let word = call.bytes::<FIRST>(FIRST);
    print_answer(rt, ask(rank, &word))
}

// How often a move on a word can be made.
pub(crate) fn count_word<F: Fn(usize, usize, &[u8]) -> Result<usize, Refusal>>(
    rt: &impl Print,
    mut call: Arguments<'_>,
    count: F,
) -> io::Result<()>
    requires { F.IsAlwaysCallable count }
{
    let rank = call.number();
    let index = call.number();
    let word = call.bytes::<FIRST>(FIRST);
    print_answer(rt, count(rank, index, &word))
}

// A question about two words.
pub(crate) fn two_words<T: Values + Drop, F: Fn(usize, &[u8], usize, &[u8]) -> Result<T, Refusal>>(
    rt: &impl Print,
    mut call: Arguments<'_>,
    ask: F,
) -> io::Result<()>
    requires { F.IsAlwaysCallable ask }
{
    let rank = call.number();
    let other_rank = call.number();
    let word = call.bytes::<FIRST>(FIRST);
    let other = call.bytes::<SECOND>(SECOND);
    print_answer(rt, ask(rank, &word, other_rank, &other))
}

// A question about a tableau.
pub(crate) fn one_tableau<T: Values + Drop, F: Fn(&CountedTableau<'_>) -> Result<T, Refusal>>(
    rt: &impl Print,
    mut call: Arguments<'_>,
    ask: F,
) -> io::Result<()>
    requires { F.IsAlwaysCallable ask }
{
    let rank = call.number();
    let given = Given::first(&mut call);
    print_answer(rt, ask(&given.at(rank)))
}

// How often a move on a tableau can be made.
pub(crate) fn count_tableau<F: Fn(usize, &CountedTableau<'_>) -> Result<usize, Refusal>>(
    rt: &impl Print,
    mut call: Arguments<'_>,
    count: F,
) -> io::Result<()>
    requires { F.IsAlwaysCallable count }
{
    let rank = call.number();
    let index = call.number();
    let given = Given::first(&mut call);
    print_answer(rt, count(index, &given.at(rank)))
}

// A look at a cell: the second number is its place.
pub(crate) fn look(rt: &impl Print, mut call: Arguments<'_>) -> io::Result<()> {
    let rank = call.number();
    let place = call.number();
    let letters = call.bytes::<FIRST>(FIRST);
    let marks = call.bytes::<SECOND>(SECOND);
    print_answer(rt, look_once(rank, &letters, &marks, place))
}

// A check of a pair.
pub(crate) fn check_pair(rt: &impl Print, mut call: Arguments<'_>) -> io::Result<()> {
    let rank = call.number();
    let given = GivenPair::first(&mut call);
    print_answer(rt, check_counted_pair(&given.at(rank)))
}

// A question about two tableaux.
pub(crate) fn two_tableaux<
    T: Values + Drop,
    F: Fn(&CountedTableau<'_>, &CountedTableau<'_>) -> Result<T, Refusal>,
>(rt: &impl Print, mut call: Arguments<'_>, ask: F) -> io::Result<()>
    requires { F.IsAlwaysCallable ask }
{
    let rank = call.number();
    let other_rank = call.number();
    let one = Given::first(&mut call);
    let other = Given::second(&mut call);
    print_answer(rt, ask(&one.at(rank), &other.at(other_rank)))
}
