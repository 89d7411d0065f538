// The search for the first broken step of a recording ribbon, as the check 8 (crate recordings) tells it.
ghost use Rattle.std.specs.Prelude.{◌<◌, ◌≤◌, ◌≡◌, length};
ghost use Rattle.outcomes.specs.Judgements.{recording_judged};
ghost use Rattle.refusals.specs.Said.{said_fault};
ghost use Rattle.shapes.specs.Steps.{step_fault};

use crate::faults::first_fault;

// Whether the entry at a place breaks the step into its cell.
#[tactic(auto, using(crate::specs::Steps::stepping))]
fn step_broken(entries: &[u16], marks: &[u8], place: usize) -> bool
    requires { (1 ≤ place) × (place < length entries.now) × (place < length marks.now) }
    ensures { result ≡ step_fault entries.now marks.now place }
{
    let before = entries[place - 1];
    let here = entries[place];
    if marks[place] == 0 {
        return here < before;
    }
    before < here
}

// Where the first broken step stands, if there is one.
pub fn step_fault(entries: &[u16], marks: &[u8]) -> Option<usize>
    ensures { said_fault 8 result ≡ recording_judged entries.now marks.now }
{
    let size = entries.len().min(marks.len());
    first_fault(1, size, |place| step_broken(entries, marks, place))
}
