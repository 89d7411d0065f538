// The items of a line, read as cells: a letter and the mark of the step into it, 0 where the line tells no step.
ghost use Rattle.std.specs.Prelude.{◌≤◌, true, false, [], ◌≡◌, drop, length, set};
ghost use Rattle.scans.specs.Items.{Gathered};

use cell_scans::cells::{Cell, item_at, letter_at};
use numerals::numbers::Broken;

// Keeps a value where there is room for it.
fn keep<T: Copy>(values: &mut [T], place: usize, value: T)
    ensures { values.new ≡ set values.old place value }
{
    if place < values.len() {
        values[place] = value;
    }
}

// Letters only, so many from a place on, and the place after them: no step stands before any, and no marks are lent. All are read, and those that fit are kept.
fn letters_at(text: &[u8], from: usize, count: usize, letters: &mut [u16]) -> Result<usize, Broken>
    requires { from ≤ length text.now }
    ensures { Gathered text.now (drop from text.now) false count
        letters.old [] letters.new [] result }
{
    let mut at = from;
    for i in 0..count {
        let Cell { letter, next, .. } = letter_at(text, at, 0)?;
        keep(letters, i, letter);
        at = next;
    }
    Ok(at)
}

// Letters with a step before each but the first, so many from a place on, and the place after them. All are read, and those that fit are kept with their marks.
// Past the first letter `stepped` stays true, so the compiler takes the first turn out of the loop and tests nothing in it.
fn ribbon_at(
    text: &[u8],
    from: usize,
    count: usize,
    letters: &mut [u16],
    marks: &mut [u8],
) -> Result<usize, Broken>
    requires { from ≤ length text.now }
    ensures { Gathered text.now (drop from text.now) true count
        letters.old marks.old letters.new marks.new result }
{
    let mut stepped = false;
    let mut at = from;
    for i in 0..count {
        let Cell { letter, mark, next } = item_at(text, at, stepped)?;
        keep(letters, i, letter);
        keep(marks, i, mark);
        stepped = true;
        at = next;
    }
    Ok(at)
}

// So many items from a place on, with or without steps, and the place after them. A line of too many items is refused for that only when all of it was read.
// Kept: `steps` is a fact of a kind of line, as `begun` takes it.
pub(crate) fn cells_at(
    text: &[u8],
    from: usize,
    count: usize,
    steps: bool,
    letters: &mut [u16],
    marks: &mut [u8],
) -> Result<usize, Broken>
    requires { from ≤ length text.now }
    ensures { Gathered text.now (drop from text.now) steps count
        letters.old marks.old letters.new marks.new result }
{
    if steps {
        ribbon_at(text, from, count, letters, marks)
    } else {
        letters_at(text, from, count, letters)
    }
}
