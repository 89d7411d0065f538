// The reader of C lines: the tableau of a line into lent letters and marks, and its letter counts. A line's items are not kept themselves: the checks are made by
// their tally, and a line that passes them has one item at most for each letter, so that two tables by letter tell all of them.
ghost use Rattle.std.specs.Prelude.{◌≡◌};
ghost use Rattle.refusals.specs.Said.{said_sizes};
ghost use Rattle.run_lines.specs.Operations.{read_c_run};
ghost use Rattle.run_readers.specs.Stores.{RunsChecked, Stored};

use fillings::steps::fill_runs;
use refusals::answers::Sizes;
use refusals::numbers::check_room;
use refusals::refusal::Refusal;
use run_scans::line::{RunLine, scan_runs};
use run_tallies::checks::check_tally;

// 1, 2, 4, 19 and 20 of a line that was read, and 13 of lent letters and marks.
fn check_runs(line: &RunLine, letters: usize, marks: usize) -> Result<(), Refusal>
    ensures { RunsChecked line.now.rank line.now.size line.now.tally letters marks result }
{
    check_tally(line.rank, line.size, line.tally)?;
    check_room(line.size, letters)?;
    check_room(line.size, marks)
}

// The tableau that the items of a line tell, into lent letters, marks and letter counts.
fn store_runs(
    line: &RunLine,
    times: &[u16; 64],
    steps: &[u8; 64],
    letters: &mut [u8],
    marks: &mut [u8],
    counts: &mut [u16; 64],
) -> Result<Sizes, Refusal>
    ensures { Stored line.now.rank line.now.size line.now.tally times.now steps.now letters.old marks.old counts.old
        letters.new marks.new counts.new result }
{
    check_runs(line, letters.len(), marks.len())?;
    fill_runs(line.rank, times, steps, letters, marks);
    *counts = *times;
    Ok(Sizes {
        rank: line.rank,
        count: line.size,
    })
}

// The tableau of a C line into lent letters, marks and letter counts, or the refusal of 14, 1, 2, 4, 19, 20 or 13, which leaves them as they were.
pub fn read_run_line(
    text: &[u8],
    letters: &mut [u8],
    marks: &mut [u8],
    counts: &mut [u16; 64],
) -> Result<Sizes, Refusal>
    ensures { (said_sizes result, (letters.new, (marks.new, counts.new)))
        ≡ read_c_run text.now letters.old marks.old counts.old }
{
    let mut times = [0u16; 64];
    let mut steps = [0u8; 64];
    match scan_runs(text, &mut times, &mut steps) {
        Err(broken) => Err(Refusal::Line(broken.place)),
        Ok(line) => store_runs(&line, &times, &steps, letters, marks, counts),
    }
}
