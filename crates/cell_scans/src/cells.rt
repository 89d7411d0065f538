// One cell of a line, read at a place of the text: a letter and the mark of the step into it, 0 where the line tells no step.
ghost use Rattle.std.specs.Prelude.{◌≡◌, drop};
ghost use Rattle.grammar.specs.Reading.{after, read_cell, read_step};
ghost use Rattle.cell_scans.specs.Cells.{Celled, Stepped, mark_of, read_item, read_marked};

use numerals::numbers::{Broken, Number, field_at, stands};

// A cell, and the place after it, which stands second so that the compiled code does not pack the others into one register.
#[derive(Clone, Copy, Debug, PartialEq, Eq)]
pub struct Cell {
    pub letter: u16,
    pub next: usize,
    pub mark: u8,
}

// A step, and the place after it.
#[derive(Clone, Copy, Debug, PartialEq, Eq)]
pub struct Step {
    pub mark: u8,
    pub next: usize,
}

// A comma and a letter, with a mark that is known.
pub fn letter_at(text: &[u8], at: usize, mark: u8) -> Result<Cell, Broken>
    ensures { Celled text.now (read_marked mark (drop at text.now)) result }
{
    let Number {
        value: letter,
        next,
    } = field_at(text, at)?;
    Ok(Cell { letter, mark, next })
}

// The mark of the step at a place.
pub fn mark_at(text: &[u8], at: usize) -> Option<u8>
    ensures { result ≡ mark_of (drop at text.now) }
{
    match text.get(at)? {
        b'r' => Some(0),
        b'd' => Some(1),
        _ => None,
    }
}

// A comma and a step. Past the end of the text nothing is left, and the grammar breaks at its end.
pub fn step_at(text: &[u8], at: usize) -> Result<Step, Broken>
    ensures { Stepped text.now (after 44 read_step (drop at text.now)) result }
{
    if !stands(text, at, b',') {
        return Err(Broken {
            place: at.min(text.len()),
        });
    }
    let mark = mark_at(text, at + 1).ok_or(Broken { place: at + 1 })?;
    Ok(Step { mark, next: at + 2 })
}

// A step, then a comma and a letter.
fn stepped_at(text: &[u8], at: usize) -> Result<Cell, Broken>
    ensures { Celled text.now (read_cell (drop at text.now)) result }
{
    let Step { mark, next } = step_at(text, at)?;
    letter_at(text, next, mark)
}

// An item of a line, with or without a step before its letter.
// Kept: `stepped` is a fact of the place, as `read_item` takes it; an enum of two cases would say no more.
pub fn item_at(text: &[u8], at: usize, stepped: bool) -> Result<Cell, Broken>
    ensures { Celled text.now (read_item stepped (drop at text.now)) result }
{
    if stepped {
        stepped_at(text, at)
    } else {
        letter_at(text, at, 0)
    }
}
