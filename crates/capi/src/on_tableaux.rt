// The C interface to one tableau: checks, column reading, moves, a look at a cell. Letter counts pass as one pointer to 64 numbers. Each function is one of the
// kernel's, its answer as a struct of numbers.
ghost use Rattle.std.specs.Prelude.{◌≡◌};
ghost use Rattle.outcomes.specs.Judgements.{counted_judgements, tableau_judgements};
ghost use Rattle.quasi_crystal.specs.Moves.{lowering, raising};
ghost use Rattle.outcomes.specs.Replies.{first, gives, passed};
ghost use Rattle.outcomes.specs.TableauOperations.{cell_at, look_says, move_tableau_run, reading_run, repeat_tableau_says};
ghost use Rattle.structs.specs.Replies.{cell_of, count_of, done_of, move_of, replied};

use columns::reading::column_reading;
use coordinates::cells::cell_at;
use lent::tableaux::{CountedTableau, Tableau};
use structs::replies::{CellReply, CountReply, DoneReply, MoveReply};
use tableaux::moves::{lower_count_tableau, lower_tableau, raise_count_tableau, raise_tableau};
use validity::counted::check_counted_tableau;
use validity::tableau::check_tableau;
use viewer::viewers::look_once;

// 1 to 6 of a tableau: the making of a ribbon viewer.
#[unsafe(no_mangle)]
pub extern "C" fn luchtrav_check_tableau(rank: usize, letters: &[u8], marks: &[u8]) -> DoneReply
    ensures { result ≡ done_of (first (tableau_judgements rank letters.now marks.now) passed) }
{
    let tableau = Tableau {
        rank,
        letters,
        marks,
    };
    DoneReply::from(check_tableau(&tableau))
}

// 1 to 6 of a tableau, and 17 of its letter counts.
#[unsafe(no_mangle)]
pub extern "C" fn luchtrav_check_counted_tableau(
    rank: usize,
    letters: &[u8],
    marks: &[u8],
    counts: &[u16; 64],
) -> DoneReply
    ensures { result ≡ done_of (first (counted_judgements rank letters.now marks.now counts.now) passed) }
{
    let tableau = CountedTableau {
        rank,
        letters,
        marks,
        counts,
    };
    DoneReply::from(check_counted_tableau(&tableau))
}

// The column reading of a tableau, into a lent word.
#[unsafe(no_mangle)]
pub extern "C" fn luchtrav_column_reading(
    rank: usize,
    letters: &[u8],
    marks: &[u8],
    counts: &[u16; 64],
    word: &mut [u8],
) -> CountReply
    ensures { (result, word.new) ≡ replied count_of (reading_run rank letters.now marks.now counts.now word.old) }
{
    let tableau = CountedTableau {
        rank,
        letters,
        marks,
        counts,
    };
    CountReply::from(column_reading(&tableau, word))
}

// Raising, in the lent letters and counts.
#[unsafe(no_mangle)]
pub extern "C" fn luchtrav_raise_tableau(
    rank: usize,
    index: usize,
    letters: &mut [u8],
    marks: &[u8],
    counts: &mut [u16; 64],
) -> MoveReply
    ensures { (result, (letters.new, counts.new))
        ≡ replied move_of
        (move_tableau_run rank (record { side = raising; index = index }) letters.old marks.now counts.old) }
{
    MoveReply::from(raise_tableau(rank, index, letters, marks, counts))
}

// Lowering, in the lent letters and counts.
#[unsafe(no_mangle)]
pub extern "C" fn luchtrav_lower_tableau(
    rank: usize,
    index: usize,
    letters: &mut [u8],
    marks: &[u8],
    counts: &mut [u16; 64],
) -> MoveReply
    ensures { (result, (letters.new, counts.new))
        ≡ replied move_of
        (move_tableau_run rank (record { side = lowering; index = index }) letters.old marks.now counts.old) }
{
    MoveReply::from(lower_tableau(rank, index, letters, marks, counts))
}

// How often raising can be repeated.
#[unsafe(no_mangle)]
pub extern "C" fn luchtrav_raise_count_tableau(
    rank: usize,
    index: usize,
    letters: &[u8],
    marks: &[u8],
    counts: &[u16; 64],
) -> CountReply
    ensures { result ≡ count_of (repeat_tableau_says rank (record { side = raising; index = index }) letters.now marks.now counts.now) }
{
    let tableau = CountedTableau {
        rank,
        letters,
        marks,
        counts,
    };
    CountReply::from(raise_count_tableau(index, &tableau))
}

// How often lowering can be repeated.
#[unsafe(no_mangle)]
pub extern "C" fn luchtrav_lower_count_tableau(
    rank: usize,
    index: usize,
    letters: &[u8],
    marks: &[u8],
    counts: &[u16; 64],
) -> CountReply
    ensures { result ≡ count_of (repeat_tableau_says rank (record { side = lowering; index = index }) letters.now marks.now counts.now) }
{
    let tableau = CountedTableau {
        rank,
        letters,
        marks,
        counts,
    };
    CountReply::from(lower_count_tableau(index, &tableau))
}

// One look through a ribbon viewer that is made for it.
#[unsafe(no_mangle)]
pub extern "C" fn luchtrav_look(
    rank: usize,
    letters: &[u8],
    marks: &[u8],
    place: usize,
) -> CellReply
    ensures { result ≡ cell_of (look_says rank letters.now marks.now place) }
{
    CellReply::from(look_once(rank, letters, marks, place))
}

// A look at any two slices, of a tableau that was checked before.
#[unsafe(no_mangle)]
pub extern "C" fn luchtrav_cell_at(letters: &[u8], marks: &[u8], place: usize) -> CellReply
    ensures { result ≡ cell_of (gives (cell_at letters.now marks.now place)) }
{
    CellReply::from(Ok(cell_at(letters, marks, place)))
}
