// The check on letter counts, 17: the first of 64 places whose number is not how often its letter stands in the letters.
ghost use Rattle.std.specs.Prelude.{not, ◌≡◌, eqb};
ghost use Rattle.outcomes.specs.Counts.{counts_judged};
ghost use Rattle.outcomes.specs.Judgements.{rising_judged};
ghost use Rattle.outcomes.specs.Replies.{passed};
ghost use Rattle.refusals.specs.Said.{said_fault, said_verdict};

use crate::blocks::confirmed;
use crate::tally::tally;
use refusals::refusal::Refusal;
use shapes::rising::rising_fault;

// Whether a number differs from how often a letter stands.
fn number_wrong(number: u16, count: usize) -> bool
    ensures { result ≡ not (eqb number count) }
{
    usize::from(number) != count
}

// Where the first wrong number stands, if there is one, by a count of all letters.
fn first_wrong(letters: &[u8], counts: &[u16; 64]) -> Option<usize>
    ensures { said_fault 17 result ≡ counts_judged counts.now letters.now }
{
    let table = tally(letters);
    (0..64).find(|i| number_wrong(counts[*i], table[*i + 1]))
}

// The same of letters that rise, which are counted only where the first pass did not confirm the numbers.
#[tactic(auto, using(crate::specs::Comparing::counting))]
fn rising_count_fault(letters: &[u8], counts: &[u16; 64]) -> Option<usize>
    requires { rising_judged letters.now ≡ passed }
    ensures { said_fault 17 result ≡ counts_judged counts.now letters.now }
{
    if confirmed(letters, counts) {
        return None;
    }
    first_wrong(letters, counts)
}

// The same of any letters.
pub fn count_fault(letters: &[u8], counts: &[u16; 64]) -> Option<usize>
    ensures { said_fault 17 result ≡ counts_judged counts.now letters.now }
{
    match rising_fault(letters) {
        Some(_) => first_wrong(letters, counts),
        None => rising_count_fault(letters, counts),
    }
}

// The verdict of 17 from that place.
pub fn counts_verdict(fault: Option<usize>) -> Result<(), Refusal>
    ensures { said_verdict result ≡ said_fault 17 fault }
{
    fault.map_or(Ok(()), |place| Err(Refusal::Count(place)))
}

// 17: each of the 64 numbers is how often its letter stands.
pub fn check_counts(letters: &[u8], counts: &[u16; 64]) -> Result<(), Refusal>
    ensures { said_verdict result ≡ counts_judged counts.now letters.now }
{
    counts_verdict(count_fault(letters, counts))
}

// 17 of letters that rise.
pub(crate) fn check_rising_counts(letters: &[u8], counts: &[u16; 64]) -> Result<(), Refusal>
    requires { rising_judged letters.now ≡ passed }
    ensures { said_verdict result ≡ counts_judged counts.now letters.now }
{
    counts_verdict(rising_count_fault(letters, counts))
}
