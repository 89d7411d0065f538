// The three lines of an accepted word, each printed straight after the one before it. The word's pair is computed once and serves two of them.
ghost use Rattle.std.specs.Prelude.{◌≤◌, length};
ghost use Rattle.grammar.specs.Lines.{j_line, p_line, w_line};
ghost use Rattle.outcomes.specs.Counts.{TrueCounts};
ghost use Rattle.hypoplactic.specs.Junctions.{junction_set, rows_of};
ghost use Rattle.outcomes.specs.LineOperations.{three_lines};
ghost use Rattle.hypoplactic.specs.Reading.{column_reading};
ghost use Rattle.hypoplactic.specs.Ribbons.{PairAt, TableauAt};
ghost use Rattle.outputs.specs.Printing.{Printed, Ready};
ghost use Rattle.outputs.specs.ThreeLines.{Held};

use columns::reading::column_reading;
use lent::tableaux::{CountedPair, CountedTableau, Pair};
use ribbons::pair::pair_of_word;
use writers::line::{write_junction_line, write_pair_line, write_word_line};

// The P line of a pair; how many bytes it has.
#[tactic(auto, using(crate::specs::ThreeLines::printing))]
fn print_pair(pair: &Pair, out: &mut [u8]) -> usize
    requires pair_at { PairAt pair.now.rank pair.now.letters.now pair.now.marks.now pair.now.entries.now }
    requires entries_in_bounds { length (p_line pair.now.rank pair.now.letters.now pair.now.marks.now pair.now.entries.now) ≤ length out.old }
    ensures { Printed (p_line pair.now.rank pair.now.letters.now pair.now.marks.now pair.now.entries.now) out.old out.new result }
{
    let Ok(bytes) = write_pair_line(pair, out) else {
        return 0;
    };
    bytes
}

// The W line of the column reading of a tableau, which brings its letter counts.
#[tactic(auto, using(crate::specs::ThreeLines::printing))]
fn print_reading(tableau: &CountedTableau, out: &mut [u8]) -> usize
    requires tableau_at { TableauAt tableau.now.rank tableau.now.letters.now tableau.now.marks.now }
    requires true_counts { TrueCounts tableau.now.letters.now tableau.now.counts.now }
    requires marks_in_bounds { length (w_line tableau.now.rank (column_reading tableau.now.letters.now tableau.now.marks.now)) ≤ length out.old }
    ensures { Printed (w_line tableau.now.rank (column_reading tableau.now.letters.now tableau.now.marks.now)) out.old out.new result }
{
    let mut reading = [0u8; 1024];
    let end = column_reading(tableau, &mut reading).unwrap();
    let Ok(bytes) = write_word_line(tableau.rank, &reading[..end], out) else {
        return 0;
    };
    bytes
}

// The J line of a word.
#[tactic(auto, using(crate::specs::ThreeLines::printing))]
fn print_junctions(rank: usize, word: &[u8], out: &mut [u8]) -> usize
    requires { Ready rank word.now (j_line (junction_set word.now) (rows_of word.now)) (length out.old) }
    ensures { Printed (j_line (junction_set word.now) (rows_of word.now)) out.old out.new result }
{
    let Ok(bytes) = write_junction_line(rank, word, out) else {
        return 0;
    };
    bytes
}

// The three lines of a word and of its pair and letter counts.
#[tactic(auto, using(crate::specs::ThreeLines::printing))]
fn print_lines(word: &[u8], pair: &CountedPair, out: &mut [u8]) -> usize
    requires held { Held pair.now.rank word.now pair.now.letters.now pair.now.marks.now pair.now.entries.now pair.now.counts.now }
    requires ready { Ready pair.now.rank word.now (three_lines pair.now.rank word.now) (length out.old) }
    ensures { Printed (three_lines pair.now.rank word.now) out.old out.new result }
{
    let CountedPair {
        rank,
        letters,
        marks,
        entries,
        counts,
    } = *pair;
    let first = print_pair(
        &Pair {
            rank,
            letters,
            marks,
            entries,
        },
        out,
    );
    let second = first
        + print_reading(
            &CountedTableau {
                rank,
                letters,
                marks,
                counts,
            },
            &mut out[first..],
        );
    second + print_junctions(rank, word, &mut out[second..])
}

// The three lines of a word; how many bytes they have.
#[tactic(auto, using(crate::specs::ThreeLines::printing))]
pub(crate) fn print_word(rank: usize, word: &[u8], out: &mut [u8]) -> usize
    requires { Ready rank word.now (three_lines rank word.now) (length out.old) }
    ensures { Printed (three_lines rank word.now) out.old out.new result }
{
    let mut letters = [0u8; 1024];
    let mut marks = [0u8; 1024];
    let mut entries = [0u16; 1024];
    let mut counts = [0u16; 64];
    let made = pair_of_word(
        rank,
        word,
        &mut letters,
        &mut marks,
        &mut entries,
        &mut counts,
    );
    let cells = made.unwrap();
    let pair = CountedPair {
        rank,
        letters: &letters[..cells],
        marks: &marks[..cells],
        entries: &entries[..cells],
        counts: &counts,
    };
    print_lines(word, &pair, out)
}
