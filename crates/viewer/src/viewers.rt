// The viewer itself: a thin struct that holds references to the caller's letters and marks, beside the verdict of its making.
ghost use Rattle.std.specs.Prelude.{◌≡◌};
ghost use Rattle.outcomes.specs.TableauOperations.{look_says, through_says, viewer_says};
ghost use Rattle.refusals.specs.Said.{said_cell, said_verdict};

use coordinates::cells::cell_through;
use lent::tableaux::Tableau;
use refusals::answers::Cell;
use refusals::refusal::Refusal;
use validity::tableau::check_tableau;

// Letters and marks may be lent for different times.
// Kept: two lists, and no `lent::tableaux::Tableau`, whose lists are lent for one time: it would ask more of who makes a viewer (`viewer_of`).
#[derive(Clone, Copy)]
pub struct Viewer<'a, 'b> {
    pub letters: &'a [u8],
    pub marks: &'b [u8],
    pub made: Result<(), Refusal>,
}

// A viewer of letters and marks at a rank. It is always made: whether they are a tableau of the rank, `made` says.
#[tactic(auto, using(coordinates::specs::Looking::made_says))]
pub fn viewer_of<'a, 'b>(rank: usize, letters: &'a [u8], marks: &'b [u8]) -> Viewer<'a, 'b>
    ensures { (result.letters ≡ letters.entry)
        × (result.marks ≡ marks.entry)
        × (said_verdict result.made ≡ viewer_says rank letters.now marks.now) }
{
    Viewer {
        letters,
        marks,
        made: check_tableau(&Tableau {
            rank,
            letters,
            marks,
        }),
    }
}

impl<'a, 'b> Viewer<'a, 'b> {
    // A look at the cell at a place.
    pub fn look(self, place: usize) -> Result<Option<Cell>, Refusal>
        ensures { said_cell result ≡ through_says (said_verdict self.entry.made) self.entry.letters.now self.entry.marks.now place }
    {
        cell_through(place, self.letters, self.marks, self.made)
    }
}

// One look, through a viewer that is made for it.
// Kept: parameters one by one, for callers that hold no struct with references.
pub fn look_once(
    rank: usize,
    letters: &[u8],
    marks: &[u8],
    place: usize,
) -> Result<Option<Cell>, Refusal>
    ensures { said_cell result ≡ look_says rank letters.now marks.now place }
{
    viewer_of(rank, letters, marks).look(place)
}
