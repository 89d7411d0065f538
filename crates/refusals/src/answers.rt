// What operations answer: a `Result` whose error is the refusal. A check answers `Result<(), Refusal>`, a move the place that it changed, an operation that
// writes how many elements it wrote; answers of more than one value have a struct here. What each answer says in the documents' numbers is fixed in
// specs/Said.antt.

// What the junction question answers: the junction set and the rows.
#[derive(Clone, Copy, Debug, PartialEq, Eq)]
pub struct Junctions {
    pub set: u64,
    pub rows: usize,
}

// What a look at a cell answers: its letter, its row and its column.
#[derive(Clone, Copy, Debug, PartialEq, Eq)]
pub struct Cell {
    pub letter: u8,
    pub row: usize,
    pub column: usize,
}

// What the reader of a line answers: the rank, and the number of letters or cells.
#[derive(Clone, Copy, Debug, PartialEq, Eq)]
pub struct Sizes {
    pub rank: usize,
    pub count: usize,
}
