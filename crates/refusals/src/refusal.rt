// The refusals of document 01's table ("Returned instead of a result") and those that document 02 adds, and the one conversion of a refusal to number and
// place.
ghost use Rattle.std.specs.Prelude.{◌≡◌};
ghost use Rattle.refusals.specs.Said.{number, place};

// One case for each row of the tables, with the place or the need where the row has one.
#[derive(Clone, Copy, Debug, PartialEq, Eq)]
pub enum Refusal {
    // 1: the rank is not 1 to 64.
    Rank,
    // 2: more than 1,024 letters or used cells.
    Length,
    // 3: lent parts differ in length, or the used count is above one of them.
    Parts,
    // 4: the letter at this place is outside 1 to rank.
    Letter(usize),
    // 5: the letter at this place is smaller than the one before it.
    Falling(usize),
    // 6: the mark at this place is not 0 or 1, not 0 at the first place, or down between equals.
    Mark(usize),
    // 7: the entry at this place is 0, too large, or met before.
    Entry(usize),
    // 8: the entry at this place breaks the step into its cell.
    Step(usize),
    // 9: the move index is not 1 to rank - 1.
    Index,
    // 10: the move is undefined by an inversion.
    Inversion,
    // 11: there is no letter that the move could change.
    NoLetter,
    // 12: insertion into 1,024 cells.
    Full,
    // 13: an output is shorter than this many elements.
    Room(usize),
    // 14: the byte at this place breaks the line grammar.
    Line(usize),
    // 15: more than 20 cells or letters, where a class is counted.
    Large,
    // 16: the number of a word is not below the size of its class.
    PastLast,
    // 17: the number at this place of the letter counts is not its letter's count.
    Count(usize),
    // 18: a departure from an empty window.
    Empty,
    // 19: the letter of the item at this index is not above the one before it, or its count is 0.
    Item(usize),
    // 20: the counts of a line's items do not add to its number of cells.
    Sum,
}

// A refusal as number and place, as the documents fix them.
#[derive(Clone, Copy, Debug, PartialEq, Eq)]
pub struct Returned {
    pub number: usize,
    pub place: usize,
}

// The only place in code where a refusal becomes a number.
impl From<Refusal> for Returned {
    ghost from_gives = { λ r told. (told.number ≡ number r) × (told.place ≡ place r) };

    fn from(refusal: Refusal) -> Returned {
        match refusal {
            Refusal::Rank => Returned {
                number: 1,
                place: 0,
            },
            Refusal::Length => Returned {
                number: 2,
                place: 0,
            },
            Refusal::Parts => Returned {
                number: 3,
                place: 0,
            },
            Refusal::Letter(place) => Returned { number: 4, place },
            Refusal::Falling(place) => Returned { number: 5, place },
            Refusal::Mark(place) => Returned { number: 6, place },
            Refusal::Entry(place) => Returned { number: 7, place },
            Refusal::Step(place) => Returned { number: 8, place },
            Refusal::Index => Returned {
                number: 9,
                place: 0,
            },
            Refusal::Inversion => Returned {
                number: 10,
                place: 0,
            },
            Refusal::NoLetter => Returned {
                number: 11,
                place: 0,
            },
            Refusal::Full => Returned {
                number: 12,
                place: 1024,
            },
            Refusal::Room(need) => Returned {
                number: 13,
                place: need,
            },
            Refusal::Line(place) => Returned { number: 14, place },
            Refusal::Large => Returned {
                number: 15,
                place: 0,
            },
            Refusal::PastLast => Returned {
                number: 16,
                place: 0,
            },
            Refusal::Count(place) => Returned { number: 17, place },
            Refusal::Empty => Returned {
                number: 18,
                place: 0,
            },
            Refusal::Item(index) => Returned {
                number: 19,
                place: index,
            },
            Refusal::Sum => Returned {
                number: 20,
                place: 0,
            },
        }
    }
}
