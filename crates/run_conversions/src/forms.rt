// T lines and C lines turned into each other. A text is read into local memory that has room for every tableau, what the reader answers is taken apart by
// `let else`, and then the other form is written.
// Kept: both ways are two calls, and differ in both; one function over a reader and a writer would have to say what closures leave in four lent arrays.
ghost use Rattle.std.specs.Prelude.{◌≡◌};
ghost use Rattle.refusals.specs.Said.{said_value};
ghost use Rattle.run_lines.specs.Operations.{runs_to_tableau_run, tableau_to_runs_run};

use lent::tableaux::Tableau;
use readers::tableau::read_tableau_line;
use refusals::answers::Sizes;
use refusals::refusal::Refusal;
use run_readers::runs::read_run_line;
use writers::line::{write_run_line, write_tableau_line};

// The C line of a T line's tableau, or the refusal of 14, 1 to 6 or 13, which leaves lent memory as it was.
#[tactic(auto, using(crate::specs::Turned::turning))]
pub fn tableau_to_runs(text: &[u8], out: &mut [u8]) -> Result<usize, Refusal>
    ensures { (said_value result, out.new) ≡ tableau_to_runs_run text.now out.old }
{
    let mut letters = [0; 1024];
    let mut marks = [0; 1024];
    let mut counts = [0; 64];
    let read = read_tableau_line(text, &mut letters, &mut marks, &mut counts);
    let Ok(Sizes { rank, count }) = read else {
        return Err(read.unwrap_err());
    };
    write_run_line(
        &Tableau {
            rank,
            letters: &letters[..count],
            marks: &marks[..count],
        },
        out,
    )
}

// The T line of a C line's tableau, or the refusal of 14, 1, 2, 4, 19, 20 or 13, which leaves lent memory as it was.
#[tactic(auto, using(crate::specs::Turned::turning))]
pub fn runs_to_tableau(text: &[u8], out: &mut [u8]) -> Result<usize, Refusal>
    ensures { (said_value result, out.new) ≡ runs_to_tableau_run text.now out.old }
{
    let mut letters = [0; 1024];
    let mut marks = [0; 1024];
    let mut counts = [0; 64];
    let read = read_run_line(text, &mut letters, &mut marks, &mut counts);
    let Ok(Sizes { rank, count }) = read else {
        return Err(read.unwrap_err());
    };
    write_tableau_line(
        &Tableau {
            rank,
            letters: &letters[..count],
            marks: &marks[..count],
        },
        out,
    )
}
