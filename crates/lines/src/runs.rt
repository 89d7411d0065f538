// The C line of a word in one call: that of its tableau, which stands for the word's whole class as the tableau line does.
ghost use Rattle.std.specs.Prelude.{◌≡◌, length, take};
ghost use Rattle.refusals.specs.Said.{said_value};
ghost use Rattle.run_lines.specs.Operations.{c_line_run, word_run_line_run};
ghost use Rattle.lines.specs.TableauLine.{Reached};

use lent::tableaux::Tableau;
use refusals::refusal::Refusal;
use ribbons::pair::pair_of_word;
use writers::line::write_run_line;

// The C line of the first cells of a tableau.
#[tactic(auto, using(crate::specs::RunLine::run_lining))]
fn write_runs(
    rank: usize,
    cells: usize,
    letters: &[u8],
    marks: &[u8],
    out: &mut [u8],
) -> Result<usize, Refusal>
    requires { Reached cells (length letters.now) (length marks.now) }
    ensures { (said_value result, out.new)
        ≡ c_line_run rank (take cells letters.now) (take cells marks.now) out.old }
{
    write_run_line(
        &Tableau {
            rank,
            letters: &letters[..cells],
            marks: &marks[..cells],
        },
        out,
    )
}

// The C line of a word, into a lent buffer, or the refusal of 1, 2, 4 or 13, which leaves the buffer as it was.
// Kept: the tableau line beside it differs in the writer that it calls; one function over both would hand lent memory to a closure.
#[tactic(auto, using(crate::specs::RunLine::run_lining))]
pub fn run_line_of_word(rank: usize, word: &[u8], out: &mut [u8]) -> Result<usize, Refusal>
    ensures { (said_value result, out.new) ≡ word_run_line_run rank word.now out.old }
{
    let mut letters = [0; 1024];
    let mut marks = [0; 1024];
    let mut entries = [0; 1024];
    let mut counts = [0; 64];
    let cells = pair_of_word(
        rank,
        word,
        &mut letters,
        &mut marks,
        &mut entries,
        &mut counts,
    )?;
    write_runs(rank, cells, &letters, &marks, out)
}
