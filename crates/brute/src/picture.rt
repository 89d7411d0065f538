// The picture of a ribbon: a right step leads to the next column, a down step to the next row of the same column. The column reading of a tableau, and its
// rows.
use plain_words::Word;
use plain_words::insertion::Tableau;

// The column reading (document 01, "Column reading"): columns from left to right, each from bottom to top. So a letter stands before all that stand above it in
// its column.
pub(crate) fn read_columns(tableau: &Tableau) -> Word {
    let mut reading = [0; 1024];
    let mut start = 0;
    for (cell, letter) in tableau.letters().iter().enumerate() {
        if tableau.marks[cell] == 0 {
            start = cell;
        }
        reading.copy_within(start..cell, start + 1);
        reading[start] = *letter;
    }
    Word {
        rank: tableau.rank,
        length: tableau.length,
        letters: reading,
    }
}

// The rows: none without a cell, else one more than the steps down.
pub(crate) fn rows_of(tableau: &Tableau) -> usize {
    let down = tableau.marks().iter().filter(|mark| **mark != 0).count();
    usize::from(!tableau.letters().is_empty()) + down
}
