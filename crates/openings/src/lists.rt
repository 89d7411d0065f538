// One list of a pair with a new cell before which so many of the used ones stand. The tail from that place on is lent to be shifted. Where the place is not
// among the used ones, or no element is free, the list stays as it is.
ghost use Rattle.std.specs.Prelude.{◌≡◌};
ghost use Rattle.openings.specs.Openings.{opened, opened_marks};

use buffers::shifts::shift;

// The used letters or entries with a new one.
#[tactic(auto, using(crate::specs::Openings::opening))]
pub fn open_elements<T: Copy>(at: usize, used: usize, new: T, elements: &mut [T])
    ensures { elements.new ≡ opened at used new elements.old }
{
    if at <= used && used < elements.len() {
        shift(&mut elements[at..=used], new);
    }
}

// The used marks with that of a new cell: the step into it is right, and the step out of it, where a cell follows, becomes down.
#[tactic(auto, using(crate::specs::Openings::opening))]
pub fn open_marks(at: usize, used: usize, marks: &mut [u8])
    ensures { marks.new ≡ opened_marks at used marks.old }
{
    if at <= used && used < marks.len() {
        shift(&mut marks[at..=used], 0);
        if at < used {
            marks[at + 1] = 1;
        }
    }
}
