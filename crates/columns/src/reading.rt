// The column reading of a tableau (document 01, "Column reading"): the columns from left to right, each from bottom to top. Most columns have one cell: all
// letters are copied, then the columns of two or more cells, of which there are fewer than the rank, are found by the marks and turned round.
ghost use Rattle.std.specs.Prelude.{◌<◌, ◌≤◌, [], ◌∷◌, ◌≡◌, length, position};
ghost use Rattle.outcomes.specs.Judgements.{counted_judgements, room_judged};
ghost use Rattle.hypoplactic.specs.Reading.{column_reading};
ghost use Rattle.outcomes.specs.Replies.{written};
ghost use Rattle.outcomes.specs.TableauOperations.{reading_run};
ghost use Rattle.refusals.specs.Running.{checks_then};
ghost use Rattle.refusals.specs.Said.{said_verdict, said_value};
ghost use Rattle.columns.specs.Columns.{Ended, NextColumn, RightSteps, is_down, is_right, some_down};

use lent::tableaux::CountedTableau;
use refusals::numbers::check_room;
use refusals::refusal::Refusal;
use validity::counted::check_counted_tableau;

// The first right step of some steps.
fn first_right(steps: &[u8]) -> Option<usize>
    ensures { result ≡ position is_right steps.now }
{
    steps.iter().position(|step| *step == 0)
}

// The first step down of some steps.
fn first_down(steps: &[u8]) -> Option<usize>
    ensures { result ≡ position is_down steps.now }
{
    steps.iter().position(|step| *step != 0)
}

// Where the column that starts at a place ends: at the first right step after it, or with the ribbon.
#[tactic(auto, using(crate::specs::Columns::searching))]
fn column_end(marks: &[u8], start: usize) -> usize
    requires { start < length marks.now }
    ensures { Ended marks.now start result }
{
    match first_right(&marks[start + 1..]) {
        Some(down) => start + 1 + down,
        None => marks.len(),
    }
}

// The first of the fours of some steps that has a step down.
fn first_four_down(fours: &[[u8; 4]]) -> Option<usize>
    ensures { result ≡ position some_down fours.now }
{
    fours
        .iter()
        .position(|four| four[0] | four[1] | four[2] | four[3] != 0)
}

// How many of the steps at the front are right ones: whole fours, as far as no step down is among four.
#[tactic(auto, using(crate::specs::Columns::searching))]
fn right_fours(steps: &[u8]) -> usize
    ensures { RightSteps steps.now result }
{
    let (fours, _) = steps.as_chunks::<4>();
    4 * first_four_down(fours).unwrap_or(fours.len())
}

// The first column of two or more cells from a column's start on, if there is one. Most columns have one cell, and their right steps are passed by fours.
#[tactic(auto, using(crate::specs::Columns::searching))]
fn next_column(marks: &[u8], from: usize) -> Option<usize>
    requires { from ≤ length marks.now }
    ensures { NextColumn marks.now from result }
{
    let steps = marks.get(from + 1..)?;
    let right = right_fours(steps);
    let down = first_down(&steps[right..])?;
    Some(from + right + down)
}

// The column reading at the beginning of a word that has room for it.
#[tactic(auto, using(crate::specs::Reading::reading))]
fn write_reading(letters: &[u8], marks: &[u8], word: &mut [u8])
    requires { (length marks.now ≡ length letters.now) × (length letters.now ≤ length word.old) }
    ensures { word.new ≡ written (column_reading letters.now marks.now) word.old }
{
    word[..letters.len()].copy_from_slice(letters);
    let mut end = 0;
    // Kept: the place goes on from column to column, and columns are as long as the marks say.
    while let Some(start) = next_column(marks, end) {
        end = column_end(marks, start);
        word[start..end].reverse();
    }
}

// 1 to 6 of the tableau, 17 of its letter counts, and 13 of a word of so many elements.
#[tactic(auto, unfolding(refusals::specs::Running::checks_then))]
fn check_reading(tableau: &CountedTableau, room: usize) -> Result<(), Refusal>
    ensures { said_verdict result
        ≡ checks_then
        (counted_judgements tableau.now.rank tableau.now.letters.now tableau.now.marks.now tableau.now.counts.now)
        (room_judged (length tableau.now.letters.now) room ∷ []) }
{
    check_counted_tableau(tableau)?;
    check_room(tableau.letters.len(), room)
}

// The column reading of a tableau that brings its letter counts, into a lent word.
#[tactic(auto, using(crate::specs::Reading::replying))]
pub fn column_reading(tableau: &CountedTableau, word: &mut [u8]) -> Result<usize, Refusal>
    ensures { (said_value result, word.new)
        ≡ reading_run tableau.now.rank tableau.now.letters.now tableau.now.marks.now tableau.now.counts.now word.old }
{
    check_reading(tableau, word.len())?;
    write_reading(tableau.letters, tableau.marks, word);
    Ok(tableau.letters.len())
}
