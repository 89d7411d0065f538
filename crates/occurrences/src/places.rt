// Where a letter stands in a word. Each scan leaves at its first hit; each function takes whatever slice it is given.
ghost use Rattle.std.specs.Prelude.{◌≡◌};
ghost use Rattle.quasi_crystal.specs.Moves.{leftmost as leftmostOf, rightmost as rightmostOf};
ghost use Rattle.occurrences.specs.Places.{found_place, stands_left};

// The place of the leftmost `letter`.
// Kept: leftmost and rightmost, the library's two searches by the names of their meaning (`leftmost`, `rightmost` of Moves).
pub fn leftmost(letter: u8, word: &[u8]) -> Option<usize>
    ensures { found_place result ≡ leftmostOf letter word.now }
{
    word.iter().position(|x| *x == letter)
}

// The place of the rightmost `letter`.
pub fn rightmost(letter: u8, word: &[u8]) -> Option<usize>
    ensures { found_place result ≡ rightmostOf letter word.now }
{
    word.iter().rposition(|x| *x == letter)
}

// Whether there are both places and the first is left of the second, by whatever distance: adjacent or not.
pub fn stands_left(first: Option<usize>, second: Option<usize>) -> bool
    ensures { result ≡ stands_left (found_place first) (found_place second) }
{
    match (first, second) {
        (Some(p), Some(q)) => p < q,
        _ => false,
    }
}
