// Tableaux and pairs as they are lent: in ribbon order the letters of the cells, the marks of the steps into them (1 down, 0 right), the entries of the
// recording ribbon, and how often each of the letters 1 to 64 stands in the tableau.

// A tableau at a rank.
#[derive(Clone, Copy)]
pub struct Tableau<'a> {
    pub rank: usize,
    pub letters: &'a [u8],
    pub marks: &'a [u8],
}

// A tableau that brings its letter counts.
#[derive(Clone, Copy)]
pub struct CountedTableau<'a> {
    pub rank: usize,
    pub letters: &'a [u8],
    pub marks: &'a [u8],
    pub counts: &'a [u16; 64],
}

// A tableau and its recording ribbon.
#[derive(Clone, Copy)]
pub struct Pair<'a> {
    pub rank: usize,
    pub letters: &'a [u8],
    pub marks: &'a [u8],
    pub entries: &'a [u16],
}

// A pair that brings its letter counts.
#[derive(Clone, Copy)]
pub struct CountedPair<'a> {
    pub rank: usize,
    pub letters: &'a [u8],
    pub marks: &'a [u8],
    pub entries: &'a [u16],
    pub counts: &'a [u16; 64],
}
