// The check on rising letters, 5.
ghost use Rattle.std.specs.Prelude.{◌≡◌};
ghost use Rattle.outcomes.specs.Judgements.{rising_judged};
ghost use Rattle.refusals.specs.Said.{said_fault, said_verdict};

use crate::faults::first_fault;
use refusals::refusal::Refusal;

// Where the first letter that is smaller than the one before it stands, if there is one.
pub fn rising_fault(letters: &[u8]) -> Option<usize>
    ensures { said_fault 5 result ≡ rising_judged letters.now }
{
    first_fault(
        1,
        letters.len(),
        |place| letters[place] < letters[place - 1],
    )
}

// The verdict of 5 from that place.
pub fn rising_verdict(fault: Option<usize>) -> Result<(), Refusal>
    ensures { said_verdict result ≡ said_fault 5 fault }
{
    fault.map_or(Ok(()), |place| Err(Refusal::Falling(place)))
}

// 5: the letters never fall along the ribbon.
pub fn check_rising(letters: &[u8]) -> Result<(), Refusal>
    ensures { said_verdict result ≡ rising_judged letters.now }
{
    rising_verdict(rising_fault(letters))
}
