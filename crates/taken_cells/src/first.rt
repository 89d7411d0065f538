// The cell that goes first: which cells may, how many orders each leaves, and the one with which a word goes on.
ghost use Rattle.std.specs.Prelude.{◌≤◌, ◌<◌, ◌≡◌, take};
ghost use Rattle.taken_cells.specs.Choices.{may_go, orders_left};
ghost use Rattle.taken_cells.specs.Lettered.{cell_of_letter, starts_at};
ghost use Rattle.taken_cells.specs.Numbered.{cell_of_number};

use crate::removal::pulled_free;
use ribbon_orders::orders::orders_of;

// Whether the cell at a place may go first: no right step leads into it, and no down step out of it.
#[tactic(auto, using(crate::specs::Choices::choosing))]
fn may_go(marks: [u8; 20], cells: usize, place: usize) -> bool
    requires { (place < cells) × (cells ≤ 20) }
    ensures { result ≡ may_go (take cells marks) place }
{
    marks[place] != 0 && (cells <= place + 1 || marks[place + 1] != 1)
}

// How many orders are left once the cell at a place has gone first, 0 where it may not.
#[tactic(auto, using(crate::specs::Choices::choosing))]
fn orders_left(marks: [u8; 20], cells: usize, place: usize) -> u64
    requires { (place < cells) × (cells ≤ 20) }
    ensures { result ≡ orders_left (take cells marks) place }
{
    if may_go(marks, cells, place) {
        let last = cells - 1;
        let fewer = pulled_free(marks, place, last);
        orders_of(&fewer[..last])
    } else {
        0
    }
}

// The place of a cell that goes first, and a number beside it: what is left of a number, or how many words come before.
// Kept: past the last cell for none, as `cell_of_number` and `cell_of_letter` of specs/ have it, for the number beside it counts there too: `number_in` of
// class_numbers adds it.
#[derive(Clone, Copy)]
pub struct First {
    pub cell: usize,
    pub number: u64,
}

// The cell that goes first in the word with this number, and that word's number among those that begin so. Past the last cell where no word has the number.
#[tactic(auto, using(crate::specs::Numbered::seeking))]
pub fn cell_of_number(marks: [u8; 20], cells: usize, number: u64) -> First
    ensures { (result.cell, result.number) ≡ cell_of_number cells marks number }
{
    if 20 < cells {
        return First {
            cell: cells,
            number,
        };
    }
    let mut left = number;
    for cell in 0..cells {
        let count = orders_left(marks, cells, cell);
        if left < count {
            return First { cell, number: left };
        }
        left -= count;
    }
    First {
        cell: cells,
        number: left,
    }
}

// Whether the cell at a place has this letter and may go first.
#[tactic(auto, using(crate::specs::Lettered::meeting))]
fn starts_at(letters: [u8; 20], marks: [u8; 20], cells: usize, letter: u8, place: usize) -> bool
    requires { (place < cells) × (cells ≤ 20) }
    ensures { result ≡ starts_at letters (take cells marks) letter place }
{
    letters[place] == letter && may_go(marks, cells, place)
}

// The cell that goes first in the words that begin with this letter, and how many words come before them. Past the last cell where there are none.
#[tactic(auto, using(crate::specs::Lettered::meeting))]
pub fn cell_of_letter(letters: [u8; 20], marks: [u8; 20], cells: usize, letter: u8) -> First
    ensures { (result.cell, result.number) ≡ cell_of_letter cells letters marks letter }
{
    if 20 < cells {
        return First {
            cell: cells,
            number: 0,
        };
    }
    let mut before: u64 = 0;
    for cell in 0..cells {
        if starts_at(letters, marks, cells, letter, cell) {
            return First {
                cell,
                number: before,
            };
        }
        before += orders_left(marks, cells, cell);
    }
    First {
        cell: cells,
        number: before,
    }
}
