// The junction set of a word by its own words (document 01, "Junction set"), letter by letter.
use crate::scanning::stands_left;

// The set: bit a - 1 is set when a occurs and the next larger letter that occurs stands left of some a. The letters come from 64 down.
pub(crate) fn junction_set(letters: &[u8]) -> u64 {
    let mut set = 0u64;
    let mut next = None;
    for a in (1..65u8).rev() {
        if let Some(b) = next
            && stands_left(b, a, letters)
        {
            set = set | (1 << (a - 1));
        }
        if letters.contains(&a) {
            next = Some(a);
        }
    }
    set
}
