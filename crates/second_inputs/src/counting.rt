// Places in a second word or tableau count on from the first's length (document 01, "Returned instead of a result"), those of its letter counts from 64: one
// step, which every check that names such a place shares.
ghost use Rattle.std.specs.Prelude.{◌≡◌, length};
ghost use Rattle.outcomes.specs.Counts.{counts_judged};
ghost use Rattle.outcomes.specs.Replies.{count_on};
ghost use Rattle.outcomes.specs.Judgements.{letters_judged, marks_judged, rising_judged};
ghost use Rattle.refusals.specs.Said.{said_verdict};
ghost use Rattle.second_inputs.specs.Counting.{FurtherFits, further};

use acceptance::letters::{letter_fault, letters_verdict};
use counts::check::{count_fault, counts_verdict};
use refusals::refusal::Refusal;
use shapes::marks::{mark_fault, marks_verdict};
use shapes::rising::{rising_fault, rising_verdict};

// The same fault, so many places further on.
fn counted_on(before: usize, fault: Option<usize>) -> Option<usize>
    requires { FurtherFits before fault }
    ensures { result ≡ further before fault }
{
    fault.map(|place| before + place)
}

// 4 of a second word or tableau.
#[tactic(auto, using(crate::specs::Counting::counting))]
pub fn check_second_letters(first: &[u8], rank: usize, second: &[u8]) -> Result<(), Refusal>
    ensures { said_verdict result ≡ count_on (length first.now) (letters_judged rank second.now) }
{
    letters_verdict(counted_on(first.len(), letter_fault(rank, second)))
}

// 5 of a second tableau.
#[tactic(auto, using(crate::specs::Counting::counting))]
pub fn check_second_rising(first: &[u8], second: &[u8]) -> Result<(), Refusal>
    ensures { said_verdict result ≡ count_on (length first.now) (rising_judged second.now) }
{
    rising_verdict(counted_on(first.len(), rising_fault(second)))
}

// 6 of a second tableau.
#[tactic(auto, using(crate::specs::Counting::counting))]
pub fn check_second_marks(first: &[u8], second: &[u8], marks: &[u8]) -> Result<(), Refusal>
    ensures { said_verdict result ≡ count_on (length first.now) (marks_judged second.now marks.now) }
{
    marks_verdict(counted_on(first.len(), mark_fault(second, marks)))
}

// 17 of a second tableau.
#[tactic(auto, using(crate::specs::Counting::counting))]
pub fn check_second_counts(second: &[u8], counts: &[u16; 64]) -> Result<(), Refusal>
    ensures { said_verdict result ≡ count_on 64 (counts_judged counts.now second.now) }
{
    counts_verdict(counted_on(64, count_fault(second, counts)))
}
