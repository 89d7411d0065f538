// The check 4 on letters. Every operation makes it, so it scans for the first fault only where the least or the largest letter is outside.
ghost use Rattle.std.specs.Prelude.{◌≡◌, position};
ghost use Rattle.outcomes.specs.Judgements.{letters_judged, outside};
ghost use Rattle.acceptance.specs.Letters.{Confirmed};
ghost use Rattle.refusals.specs.Said.{said_fault, said_verdict};

use refusals::refusal::Refusal;

// Whether a letter is outside 1 to rank.
fn outside(rank: usize, letter: u8) -> bool
    ensures { result ≡ outside rank letter }
{
    letter < 1 || rank < usize::from(letter)
}

// Whether the least and the largest letter, and so all letters, are inside 1 to rank. The loop leaves at no letter and keeps only bytes, so that the
// compiled code takes many letters at once.
#[tactic(auto, using(crate::specs::Letters::bounding))]
fn all_inside(rank: usize, letters: &[u8]) -> bool
    ensures { Confirmed rank letters.now result }
{
    let mut least = u8::MAX;
    let mut largest = u8::MIN;
    for letter in letters {
        least = least.min(*letter);
        largest = largest.max(*letter);
    }
    1 <= least && usize::from(largest) <= rank
}

// The scan for the first letter outside 1 to rank.
fn first_outside(rank: usize, letters: &[u8]) -> Option<usize>
    ensures { result ≡ position (outside rank) letters.now }
{
    letters.iter().position(|letter| outside(rank, *letter))
}

// Where the first letter outside 1 to rank stands, if there is one.
#[tactic(auto, using(crate::specs::Letters::bounding))]
pub fn letter_fault(rank: usize, letters: &[u8]) -> Option<usize>
    ensures { said_fault 4 result ≡ letters_judged rank letters.now }
{
    if all_inside(rank, letters) {
        return None;
    }
    first_outside(rank, letters)
}

// The verdict of 4 from that place.
pub fn letters_verdict(fault: Option<usize>) -> Result<(), Refusal>
    ensures { said_verdict result ≡ said_fault 4 fault }
{
    fault.map_or(Ok(()), |place| Err(Refusal::Letter(place)))
}

// 4: each letter is 1 to rank.
pub fn check_letters(rank: usize, letters: &[u8]) -> Result<(), Refusal>
    ensures { said_verdict result ≡ letters_judged rank letters.now }
{
    letters_verdict(letter_fault(rank, letters))
}
