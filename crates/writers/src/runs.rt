// The runs of a tableau's cells as items of a line: how many bytes they take, and their bytes. A run is found where it begins, from the first cell on, so that
// each cell is looked at once for the count and once for the bytes.
ghost use Rattle.std.specs.Prelude.{◌+◌, ◌<◌, ◌≤◌, ◌≡◌, length};
ghost use Rattle.line_sizes.specs.Sizes.{Counted};
ghost use Rattle.writers.specs.Laying.{Laid};
ghost use Rattle.writers.specs.RunForms.{run_at, run_form};
ghost use Rattle.writers.specs.RunLengths.{Ran};

use crate::fields::write_field;
use crate::items::write_step;
use line_sizes::sizes::field_size;

// How many cells from a place on have the letter of the cell there.
#[tactic(auto, using(crate::specs::RunLengths::walking))]
fn run_length(letters: &[u8], i: usize) -> usize
    requires { i < length letters.now }
    ensures { Ran letters.now i result }
{
    let letter = letters[i];
    for end in i + 1..letters.len() {
        if letters[end] != letter {
            return end - i;
        }
    }
    letters.len() - i
}

// How many bytes a run takes that has so many cells from a place on.
#[tactic(auto, using(crate::specs::RunLoops::totalling_runs))]
fn run_size(letters: &[u8], marks: &[u8], i: usize, times: usize) -> usize
    requires { i < length letters.now }
    ensures { Counted 44 (run_at letters.now marks.now i times) result }
{
    let size = field_size(usize::from(letters[i])) + field_size(times);
    if i == 0 { size } else { size + 2 }
}

// How many bytes it takes to say how many cells a tableau has, and the runs of its cells.
#[tactic(auto, using(crate::specs::RunLoops::totalling_runs))]
pub(crate) fn runs_size(letters: &[u8], marks: &[u8]) -> usize
    requires { (length letters.now ≤ 1024) × (length marks.now ≡ length letters.now) }
    ensures { Counted 45077 (run_form letters.now marks.now) result }
{
    let mut size = field_size(letters.len());
    // Kept: a turn goes on by a whole run, whose mark stands at its first place; `chunk_by` would leave the places to be counted beside it.
    let mut i = 0;
    while i < letters.len() {
        let times = run_length(letters, i);
        size += run_size(letters, marks, i, times);
        i += times;
    }
    size
}

// Writes a run that has so many cells from a place on: the first of them, and how many.
#[tactic(auto, using(crate::specs::RunLoops::writing_runs))]
fn write_run(
    letters: &[u8],
    marks: &[u8],
    i: usize,
    times: usize,
    out: &mut [u8],
    at: usize,
) -> usize
    requires { (i < length letters.now) × (length marks.now ≡ length letters.now)
        × (at + length (run_at letters.now marks.now i times) ≤ length out.old) }
    ensures { Laid (run_at letters.now marks.now i times) out.old at out.new result }
{
    let from = write_step(marks, i, out, at);
    let end = write_field(usize::from(letters[i]), out, from);
    write_field(times, out, end)
}

// Writes how many cells a tableau has, and the runs of its cells, from a place on.
#[tactic(auto, using(crate::specs::RunLoops::writing_runs))]
pub(crate) fn write_runs(letters: &[u8], marks: &[u8], out: &mut [u8], start: usize) -> usize
    requires { (length marks.now ≡ length letters.now) × (start + length (run_form letters.now marks.now) ≤ length out.old) }
    ensures { Laid (run_form letters.now marks.now) out.old start out.new result }
{
    let mut at = write_field(letters.len(), out, start);
    // Kept: a turn goes on by a whole run, whose mark stands at its first place; `chunk_by` would leave the places to be counted beside it.
    let mut i = 0;
    while i < letters.len() {
        let times = run_length(letters, i);
        at = write_run(letters, marks, i, times, out, at);
        i += times;
    }
    at
}
