// The calls that write into letters and counts of a tableau, or into its marks too. What is lent is printed after the call.
use crate::calls::{FIRST, OTHER};
use crate::given::Given;
use multiplication::product::product;
use notation::answers::print_answer;
use notation::arguments::Arguments;
use notation::printing::{print_counts, print_list};
use refusals::answers::Sizes;
use refusals::refusal::Refusal;
use std::io;

// A move on a tableau.
pub(crate) fn move_tableau<
    F: Fn(usize, usize, &mut [u8], &[u8], &mut [u16; 64]) -> Result<usize, Refusal>,
>(rt: &impl Print, mut call: Arguments<'_>, change: F) -> io::Result<()>
    requires { F.IsAlwaysCallable change }
{
    let rank = call.number();
    let index = call.number();
    let mut letters = call.bytes::<OTHER>(OTHER);
    let marks = call.bytes::<FIRST>(FIRST);
    let mut counts = call.counts();
    print_answer(rt, change(rank, index, &mut letters, &marks, &mut counts))?;
    print_list(rt, &letters)?;
    print_counts(rt, &counts)
}

// A line of a tableau read.
pub(crate) fn read_tableau<
    F: Fn(&[u8], &mut [u8], &mut [u8], &mut [u16; 64]) -> Result<Sizes, Refusal>,
>(rt: &impl Print, mut call: Arguments<'_>, read: F) -> io::Result<()>
    requires { F.IsAlwaysCallable read }
{
    let line = call.text::<FIRST>(FIRST);
    let mut letters = call.bytes::<OTHER>(OTHER);
    let mut marks = call.bytes::<OTHER>(OTHER);
    let mut counts = call.counts();
    print_answer(rt, read(&line, &mut letters, &mut marks, &mut counts))?;
    print_list(rt, &letters)?;
    print_list(rt, &marks)?;
    print_counts(rt, &counts)
}

// The product of two tableaux.
pub(crate) fn multiply(rt: &impl Print, mut call: Arguments<'_>) -> io::Result<()> {
    let rank = call.number();
    let one = Given::first(&mut call);
    let other = Given::second(&mut call);
    let mut letters = call.bytes::<OTHER>(OTHER);
    let mut marks = call.bytes::<OTHER>(OTHER);
    let mut counts = call.counts();
    print_answer(
        rt,
        product(
            &one.at(rank),
            &other.at(rank),
            &mut letters,
            &mut marks,
            &mut counts,
        ),
    )?;
    print_list(rt, &letters)?;
    print_list(rt, &marks)?;
    print_counts(rt, &counts)
}
