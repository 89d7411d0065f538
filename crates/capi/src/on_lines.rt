// The C interface to lines: written, read, former ones turned into a P line, and the program's answer. Each function is one of the kernel's, its answer as a struct of numbers.
ghost use Rattle.std.specs.Prelude.{◌≡◌};
ghost use Rattle.former_lines.specs.Conversion.{convert_run};
ghost use Rattle.hypoplactic.specs.Insertion.{pair_with};
ghost use Rattle.outcomes.specs.LineOperations.{e_line_run, j_line_run, p_line_run, t_line_run, tableau_line_run, w_line_run};
ghost use Rattle.outcomes.specs.LineReadings.{answer_run, read_p_run, read_t_run, read_w_run};
ghost use Rattle.structs.specs.Replies.{count_of, line_of, replied};

use conversions::former::convert_lines;
use lent::tableaux::{Pair, Tableau};
use lines::tableau::tableau_line_of_word;
use outputs::answer::answer;
use readers::pair::read_pair_line;
use readers::tableau::read_tableau_line;
use structs::replies::{CountReply, LineReply};
use word_readers::word::read_word_line;
use writers::line::{
    write_junction_line, write_pair_line, write_returned_line, write_tableau_line, write_word_line,
};

// The tableau line of a word.
#[unsafe(no_mangle)]
pub extern "C" fn luchtrav_tableau_line_of_word(
    rank: usize,
    word: &[u8],
    out: &mut [u8],
) -> CountReply
    ensures { (result, out.new) ≡ replied count_of (tableau_line_run rank word.now out.old) }
{
    CountReply::from(tableau_line_of_word(rank, word, out))
}

// The W line of a word.
#[unsafe(no_mangle)]
pub extern "C" fn luchtrav_write_word_line(rank: usize, word: &[u8], out: &mut [u8]) -> CountReply
    ensures { (result, out.new) ≡ replied count_of (w_line_run rank word.now out.old) }
{
    CountReply::from(write_word_line(rank, word, out))
}

// The T line of a tableau.
#[unsafe(no_mangle)]
pub extern "C" fn luchtrav_write_tableau_line(
    rank: usize,
    letters: &[u8],
    marks: &[u8],
    out: &mut [u8],
) -> CountReply
    ensures { (result, out.new) ≡ replied count_of (t_line_run rank letters.now marks.now out.old) }
{
    let tableau = Tableau {
        rank,
        letters,
        marks,
    };
    CountReply::from(write_tableau_line(&tableau, out))
}

// The P line of a pair.
#[unsafe(no_mangle)]
pub extern "C" fn luchtrav_write_pair_line(
    rank: usize,
    letters: &[u8],
    marks: &[u8],
    entries: &[u16],
    out: &mut [u8],
) -> CountReply
    ensures { (result, out.new)
        ≡ replied count_of (p_line_run rank letters.now marks.now entries.now out.old) }
{
    let pair = Pair {
        rank,
        letters,
        marks,
        entries,
    };
    CountReply::from(write_pair_line(&pair, out))
}

// The J line of a word.
#[unsafe(no_mangle)]
pub extern "C" fn luchtrav_write_junction_line(
    rank: usize,
    word: &[u8],
    out: &mut [u8],
) -> CountReply
    ensures { (result, out.new) ≡ replied count_of (j_line_run rank word.now out.old) }
{
    CountReply::from(write_junction_line(rank, word, out))
}

// The E line of any number and place.
#[unsafe(no_mangle)]
pub extern "C" fn luchtrav_write_refusal_line(
    number: usize,
    place: usize,
    out: &mut [u8],
) -> CountReply
    ensures { (result, out.new) ≡ replied count_of (e_line_run number place out.old) }
{
    CountReply::from(write_returned_line(number, place, out))
}

// A W line, into lent letters.
#[unsafe(no_mangle)]
pub extern "C" fn luchtrav_read_word_line(text: &[u8], letters: &mut [u8]) -> LineReply
    ensures { (result, letters.new) ≡ replied line_of (read_w_run text.now letters.old) }
{
    LineReply::from(read_word_line(text, letters))
}

// A T line, into lent letters, marks and counts.
#[unsafe(no_mangle)]
pub extern "C" fn luchtrav_read_tableau_line(
    text: &[u8],
    letters: &mut [u8],
    marks: &mut [u8],
    counts: &mut [u16; 64],
) -> LineReply
    ensures { (result, (letters.new, (marks.new, counts.new)))
        ≡ replied line_of (read_t_run text.now letters.old marks.old counts.old) }
{
    LineReply::from(read_tableau_line(text, letters, marks, counts))
}

// A P line, into lent letters, marks, entries and counts.
#[unsafe(no_mangle)]
pub extern "C" fn luchtrav_read_pair_line(
    text: &[u8],
    letters: &mut [u8],
    marks: &mut [u8],
    entries: &mut [u16],
    counts: &mut [u16; 64],
) -> LineReply
    ensures { (result, (pair_with letters.new marks.new entries.new, counts.new))
        ≡ replied line_of
        (read_p_run
        text.now
        (pair_with letters.old marks.old entries.old)
        counts.old) }
{
    LineReply::from(read_pair_line(text, letters, marks, entries, counts))
}

// The P line of a former T line and N line.
#[unsafe(no_mangle)]
pub extern "C" fn luchtrav_convert_lines(
    tableau_text: &[u8],
    recording_text: &[u8],
    out: &mut [u8],
) -> CountReply
    ensures { (result, out.new) ≡ replied count_of (convert_run tableau_text.now recording_text.now out.old) }
{
    CountReply::from(convert_lines(tableau_text, recording_text, out))
}

// What the program prints for a text.
#[unsafe(no_mangle)]
pub extern "C" fn luchtrav_answer(text: &[u8], out: &mut [u8]) -> CountReply
    ensures { (result, out.new) ≡ replied count_of (answer_run text.now out.old) }
{
    CountReply::from(answer(text, out))
}
