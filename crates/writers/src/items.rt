// The items of a line, one after the other: letters, cells, the cells and the recording entries of a pair. How many bytes they take, and their bytes.
ghost use Rattle.std.specs.Prelude.{◌+◌, ◌<◌, ◌≤◌, ◌≡◌, length};
ghost use Rattle.grammar.specs.Lines.{cell, cells, field, first_cell, items, step};
ghost use Rattle.line_sizes.specs.Sizes.{Counted};
ghost use Rattle.writers.specs.Cells.{cell_at, step_at};
ghost use Rattle.writers.specs.Items.{listed};
ghost use Rattle.writers.specs.Laying.{Laid};
ghost use Rattle.writers.specs.Parts.{Alike, Placed, parts};

use crate::fields::write_field;
use line_sizes::sizes::field_size;

// How many bytes it takes to say how many letters there are, and the letters.
#[tactic(auto, using(crate::specs::Items::totalling))]
pub(crate) fn list_size(letters: &[u8]) -> usize
    requires { length letters.now ≤ 1024 }
    ensures { Counted 21525 (listed (length letters.now) (items field field letters.now)) result }
{
    let mut size = field_size(letters.len());
    for letter in letters {
        size += field_size(usize::from(*letter));
    }
    size
}

// Writes how many letters there are, and the letters, from a place on.
#[tactic(auto, using(crate::specs::Items::writing))]
pub(crate) fn write_list(letters: &[u8], out: &mut [u8], start: usize) -> usize
    requires { start + length (listed (length letters.now) (items field field letters.now)) ≤ length out.old }
    ensures { Laid (listed (length letters.now) (items field field letters.now)) out.old start out.new result }
{
    let mut at = write_field(letters.len(), out, start);
    for letter in letters {
        at = write_field(usize::from(*letter), out, at);
    }
    at
}

// How many bytes it takes to say how many cells a tableau has, and the cells: as for its letters, and two for each step between neighbours.
#[tactic(auto, using(crate::specs::Cells::stepping))]
pub(crate) fn ribbon_size(letters: &[u8], marks: &[u8]) -> usize
    requires { (length letters.now ≤ 1024) × (length marks.now ≡ length letters.now) }
    ensures { Counted 23573 (listed (length letters.now) (items first_cell cell (cells letters.now marks.now))) result }
{
    let size = list_size(letters);
    if letters.is_empty() {
        return size;
    }
    size + (letters.len() - 1) * 2
}

// The letter of a step: r to the right, d down.
#[tactic(auto, using(crate::specs::Cells::stepping))]
fn step_letter(mark: u8) -> u8
    ensures { result ≡ step mark }
{
    if mark == 0 { b'r' } else { b'd' }
}

// Writes the step into the cell at a place of the ribbon, and answers the place after it. No step leads into the first.
#[tactic(auto, using(crate::specs::Cells::stepping))]
pub(crate) fn write_step(marks: &[u8], i: usize, out: &mut [u8], at: usize) -> usize
    requires { (i < length marks.now) × (at + length (step_at marks.now i) ≤ length out.old) }
    ensures { Laid (step_at marks.now i) out.old at out.new result }
{
    if i == 0 {
        return at;
    }
    out[at] = b',';
    out[at + 1] = step_letter(marks[i]);
    at + 2
}

// Writes the cell at a place of the ribbon: the step into it, and its letter.
#[tactic(auto, using(crate::specs::Cells::stepping))]
fn write_cell(letters: &[u8], marks: &[u8], i: usize, out: &mut [u8], at: usize) -> usize
    requires { (i < length letters.now) × (length marks.now ≡ length letters.now)
        × (at + length (cell_at letters.now marks.now i) ≤ length out.old) }
    ensures { Laid (cell_at letters.now marks.now i) out.old at out.new result }
{
    let from = write_step(marks, i, out, at);
    write_field(usize::from(letters[i]), out, from)
}

// Writes how many cells a tableau has, and the cells, from a place on.
#[tactic(auto, using(crate::specs::Cells::stepping))]
pub(crate) fn write_ribbon(letters: &[u8], marks: &[u8], out: &mut [u8], start: usize) -> usize
    requires { (length marks.now ≡ length letters.now)
        × (start + length (listed (length letters.now) (items first_cell cell (cells letters.now marks.now))) ≤ length out.old) }
    ensures { Laid
        (listed (length letters.now) (items first_cell cell (cells letters.now marks.now)))
        out.old
        start
        out.new
        result }
{
    let mut at = write_field(letters.len(), out, start);
    for i in 0..letters.len() {
        at = write_cell(letters, marks, i, out, at);
    }
    at
}

// How many bytes it takes to say how many cells a pair has, the cells, and the entries.
#[tactic(auto, using(crate::specs::Parts::parting))]
pub(crate) fn parts_size(letters: &[u8], marks: &[u8], entries: &[u16]) -> usize
    requires { Alike letters.now marks.now entries.now }
    ensures { Counted 45077 (parts letters.now marks.now entries.now) result }
{
    let mut size = ribbon_size(letters, marks);
    for entry in entries {
        size += field_size(usize::from(*entry));
    }
    size
}

// Writes how many cells a pair has, the cells, and the entries, from a place on.
#[tactic(auto, using(crate::specs::Parts::parting))]
pub(crate) fn write_parts(
    letters: &[u8],
    marks: &[u8],
    entries: &[u16],
    out: &mut [u8],
    start: usize,
) -> usize
    requires { Placed letters.now marks.now entries.now (length out.old) start }
    ensures { Laid (parts letters.now marks.now entries.now) out.old start out.new result }
{
    let mut at = write_ribbon(letters, marks, out, start);
    for entry in entries {
        at = write_field(usize::from(*entry), out, at);
    }
    at
}
