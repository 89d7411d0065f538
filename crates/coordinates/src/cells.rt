// A cell by its place, over any two slices: they may be of unequal lengths, and need be no tableau.
ghost use Rattle.std.specs.Prelude.{◌≡◌, Ok};
ghost use Rattle.outcomes.specs.Replies.{gives};
ghost use Rattle.hypoplactic.specs.Ribbons.{steps_to};
ghost use Rattle.outcomes.specs.TableauOperations.{cell_at, through_says};
ghost use Rattle.refusals.specs.Said.{said_cell, said_verdict};

use multiplicities::counts::count_letters;
use refusals::answers::Cell;
use refusals::refusal::Refusal;

// The steps with a mark on the way to the cell at a place: with 1 the cell's row, with 0 its column. The first cell's mark is no step.
fn steps_to(mark: u8, marks: &[u8], place: usize) -> usize
    ensures { result ≡ steps_to mark marks.now place }
{
    let Some((_first, steps)) = marks.split_first() else {
        return 0;
    };
    count_letters(mark, &steps[..place.min(steps.len())])
}

// The cell at a place, if there is one.
pub fn cell_at(letters: &[u8], marks: &[u8], place: usize) -> Option<Cell>
    ensures { said_cell (Ok result) ≡ gives (cell_at letters.now marks.now place) }
{
    if place < letters.len() {
        let row = steps_to(1, marks, place);
        let column = steps_to(0, marks, place);
        Some(Cell {
            letter: letters[place],
            row,
            column,
        })
    } else {
        None
    }
}

// The cell at a place, through a viewer whose making gave the verdict `made`: a refusal is passed on, so that no cell is called missing for it.
#[tactic(auto, unfolding(outcomes::specs::TableauOperations::through_says))]
pub fn cell_through(
    place: usize,
    letters: &[u8],
    marks: &[u8],
    made: Result<(), Refusal>,
) -> Result<Option<Cell>, Refusal>
    ensures { said_cell result ≡ through_says (said_verdict made) letters.now marks.now place }
{
    made?;
    Ok(cell_at(letters, marks, place))
}
