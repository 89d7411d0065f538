// The check on marks, 6.
ghost use Rattle.std.specs.Prelude.{◌<◌, ◌≡◌, length};
ghost use Rattle.outcomes.specs.Judgements.{marks_judged};
ghost use Rattle.outcomes.specs.FirstPlaces.{mark_fault};
ghost use Rattle.shapes.specs.Faults.{largest_mark};
ghost use Rattle.refusals.specs.Said.{said_fault, said_verdict};

use crate::faults::first_fault;
use refusals::refusal::Refusal;

// The largest mark of a step between two letters: none goes down between equals.
#[tactic(auto, using(crate::specs::Faults::marking))]
fn largest_mark(before: u8, here: u8) -> u8
    ensures { result ≡ largest_mark before here }
{
    u8::from(before != here)
}

// Whether the mark at a place is not 0 or 1, not 0 at the first place, or down between equals.
#[tactic(auto, using(crate::specs::Faults::marking))]
fn mark_wrong(letters: &[u8], marks: &[u8], place: usize) -> bool
    requires { (place < length letters.now) × (place < length marks.now) }
    ensures { result ≡ mark_fault letters.now marks.now place }
{
    let mark = marks[place];
    if place == 0 {
        return 0 < mark;
    }
    largest_mark(letters[place - 1], letters[place]) < mark
}

// Where the first wrong mark stands, if there is one.
pub fn mark_fault(letters: &[u8], marks: &[u8]) -> Option<usize>
    ensures { said_fault 6 result ≡ marks_judged letters.now marks.now }
{
    let size = letters.len().min(marks.len());
    first_fault(0, size, |place| mark_wrong(letters, marks, place))
}

// The verdict of 6 from that place.
pub fn marks_verdict(fault: Option<usize>) -> Result<(), Refusal>
    ensures { said_verdict result ≡ said_fault 6 fault }
{
    fault.map_or(Ok(()), |place| Err(Refusal::Mark(place)))
}

// 6: the first mark is 0, each other one 0 or 1, and none goes down between equals.
pub fn check_marks(letters: &[u8], marks: &[u8]) -> Result<(), Refusal>
    ensures { said_verdict result ≡ marks_judged letters.now marks.now }
{
    marks_verdict(mark_fault(letters, marks))
}
