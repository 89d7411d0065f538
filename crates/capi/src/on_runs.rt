// The C interface to C lines: written, read, and turned into T lines and back. Each function is one of the kernel's, its answer as a struct of numbers.
ghost use Rattle.std.specs.Prelude.{◌≡◌};
ghost use Rattle.run_lines.specs.Operations.{c_line_run, read_c_run, runs_to_tableau_run, tableau_to_runs_run, word_run_line_run};
ghost use Rattle.structs.specs.Replies.{count_of, line_of, replied};

use lent::tableaux::Tableau;
use lines::runs::run_line_of_word;
use run_conversions::forms::{runs_to_tableau, tableau_to_runs};
use run_readers::runs::read_run_line;
use structs::replies::{CountReply, LineReply};
use writers::line::write_run_line;

// The C line of a word.
#[unsafe(no_mangle)]
pub extern "C" fn luchtrav_run_line_of_word(rank: usize, word: &[u8], out: &mut [u8]) -> CountReply
    ensures { (result, out.new) ≡ replied count_of (word_run_line_run rank word.now out.old) }
{
    CountReply::from(run_line_of_word(rank, word, out))
}

// The C line of a tableau.
#[unsafe(no_mangle)]
pub extern "C" fn luchtrav_write_run_line(
    rank: usize,
    letters: &[u8],
    marks: &[u8],
    out: &mut [u8],
) -> CountReply
    ensures { (result, out.new) ≡ replied count_of (c_line_run rank letters.now marks.now out.old) }
{
    let tableau = Tableau {
        rank,
        letters,
        marks,
    };
    CountReply::from(write_run_line(&tableau, out))
}

// A C line, into lent letters, marks and counts.
#[unsafe(no_mangle)]
pub extern "C" fn luchtrav_read_run_line(
    text: &[u8],
    letters: &mut [u8],
    marks: &mut [u8],
    counts: &mut [u16; 64],
) -> LineReply
    ensures { (result, (letters.new, (marks.new, counts.new)))
        ≡ replied line_of (read_c_run text.now letters.old marks.old counts.old) }
{
    LineReply::from(read_run_line(text, letters, marks, counts))
}

// The C line of a T line.
#[unsafe(no_mangle)]
pub extern "C" fn luchtrav_tableau_to_runs(text: &[u8], out: &mut [u8]) -> CountReply
    ensures { (result, out.new) ≡ replied count_of (tableau_to_runs_run text.now out.old) }
{
    CountReply::from(tableau_to_runs(text, out))
}

// The T line of a C line.
#[unsafe(no_mangle)]
pub extern "C" fn luchtrav_runs_to_tableau(text: &[u8], out: &mut [u8]) -> CountReply
    ensures { (result, out.new) ≡ replied count_of (runs_to_tableau_run text.now out.old) }
{
    CountReply::from(runs_to_tableau(text, out))
}
