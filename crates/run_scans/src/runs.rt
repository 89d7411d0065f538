// One item of a C line: a cell, and then how often its letter stands.
ghost use Rattle.std.specs.Prelude.{drop};
ghost use Rattle.run_scans.specs.Runs.{ItemTold, read_marked_run, read_run_item};

use cell_scans::cells::{Step, letter_at, step_at};
use numerals::numbers::{Broken, field_at};

// An item, and the place after it, which stands second so that the compiled code does not pack the others into one register.
#[derive(Clone, Copy, Debug, PartialEq, Eq)]
pub(crate) struct Item {
    pub letter: u16,
    pub next: usize,
    pub times: u16,
    pub mark: u8,
}

// A letter and its count, with a mark that is known.
fn marked_run_at(text: &[u8], at: usize, mark: u8) -> Result<Item, Broken>
    ensures { ItemTold text.now (read_marked_run mark (drop at text.now)) result }
{
    let cell = letter_at(text, at, mark)?;
    let times = field_at(text, cell.next)?;
    Ok(Item {
        letter: cell.letter,
        times: times.value,
        mark: cell.mark,
        next: times.next,
    })
}

// An item, with or without a step before its letter. (The step is read here and not by `item_at`: a second caller would keep the compiler from laying that
// function into the loop over the cells of T lines.)
// Kept: `stepped` is a fact of the place, as `read_run_item` takes it.
pub(crate) fn run_at(text: &[u8], at: usize, stepped: bool) -> Result<Item, Broken>
    ensures { ItemTold text.now (read_run_item stepped (drop at text.now)) result }
{
    if !stepped {
        return marked_run_at(text, at, 0);
    }
    let Step { mark, next } = step_at(text, at)?;
    marked_run_at(text, next, mark)
}
