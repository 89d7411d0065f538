// Tableaux and pairs that a call is given: their lists stand one after the other in a line.
use crate::calls::{FIRST, OTHER, SECOND};
use arrayvec::ArrayVec;
use lent::tableaux::{CountedPair, CountedTableau};
use notation::arguments::Arguments;

// A tableau: letters, marks and counts.
#[derive(Drop)]
pub(crate) struct Given {
    letters: ArrayVec<u8, FIRST>,
    marks: ArrayVec<u8, SECOND>,
    counts: [u16; 64],
}

impl Given {
    // The first tableau of a call.
    pub(crate) fn first(call: &mut Arguments<'_>) -> Given {
        Given {
            letters: call.bytes(FIRST),
            marks: call.bytes(SECOND),
            counts: call.counts(),
        }
    }

    // The second.
    pub(crate) fn second(call: &mut Arguments<'_>) -> Given {
        Given {
            letters: call.bytes(OTHER),
            marks: call.bytes(OTHER),
            counts: call.counts(),
        }
    }

    // The tableau at a rank.
    pub(crate) fn at(&self, rank: usize) -> CountedTableau<'_> {
        CountedTableau {
            rank,
            letters: &self.letters,
            marks: &self.marks,
            counts: &self.counts,
        }
    }
}

// A pair that a call is given: letters, marks, entries and counts.
#[derive(Drop)]
pub(crate) struct GivenPair {
    letters: ArrayVec<u8, FIRST>,
    marks: ArrayVec<u8, SECOND>,
    entries: ArrayVec<u16, OTHER>,
    counts: [u16; 64],
}

impl GivenPair {
    // The pair of a call.
    pub(crate) fn first(call: &mut Arguments<'_>) -> GivenPair {
        GivenPair {
            letters: call.bytes(FIRST),
            marks: call.bytes(SECOND),
            entries: call.entries(OTHER),
            counts: call.counts(),
        }
    }

    // The pair at a rank.
    pub(crate) fn at(&self, rank: usize) -> CountedPair<'_> {
        CountedPair {
            rank,
            letters: &self.letters,
            marks: &self.marks,
            entries: &self.entries,
            counts: &self.counts,
        }
    }
}
