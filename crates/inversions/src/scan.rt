// The inversion of a tableau (document 01, "Moves"): one scan of the down steps tells whether i+1 stands directly below i. It takes whatever it is given.
ghost use Rattle.std.specs.Prelude.{◌≡◌, ◌+◌, ◌<◌, ◌&&◌, eqb};
ghost use Rattle.quasi_crystal.specs.Moves.{below, from_to};

// Whether a step goes down from the letter `here` to `next`, the one after it. A mark 1 is a step down. Every test is made, so that no branch is left.
#[tactic(auto, using(crate::specs::Walking::stepping))]
fn steps_below(here: u8, next: u8, upper: u8, lower: u8, mark: u8) -> bool
    requires { next ≡ here + 1 }
    ensures { result ≡ (from_to here upper lower && eqb mark 1) }
{
    (upper == here) & (lower == next) & (mark == 1)
}

// Whether the letter after `here` stands directly below it. The first cell has no step into it; places that only one of the lists has are no cells. The
// loop compares bytes and leaves at no cell, so that the compiled code takes many cells at once.
#[tactic(auto, using(crate::specs::Walking::walking))]
fn some_step_below(here: u8, letters: &[u8], marks: &[u8]) -> bool
    requires { here < 255 }
    ensures { result ≡ below here letters.now marks.now }
{
    let size = letters.len().min(marks.len());
    let next = here + 1;
    let mut found = false;
    // Kept: neighbours by their places: pairs by `zip` take 1,608 instructions in place of 925 over 1,024 cells.
    for i in 1..size {
        found |= steps_below(here, next, letters[i - 1], letters[i], marks[i]);
    }
    found
}

// Whether i+1 stands directly below i. From 255 on, i+1 is no byte, and so no letter.
#[tactic(auto, using(crate::specs::Walking::walking))]
pub fn has_below(index: usize, letters: &[u8], marks: &[u8]) -> bool
    ensures { result ≡ below index letters.now marks.now }
{
    if 254 < index {
        return false;
    }
    some_step_below(index as u8, letters, marks)
}
