// Whole C lines, read by the grammar alone: rank, number of cells, the items, the line feed, nothing after it.
ghost use Rattle.std.specs.Prelude.{◌≤◌, drop, length};
ghost use Rattle.grammar.specs.Reading.{read_c};
ghost use Rattle.run_scans.specs.Items.{begun_runs};
ghost use Rattle.run_scans.specs.Lines.{RunsScanned, read_body, whole_runs};

use crate::items::{Items, items_at};
use numerals::numbers::Broken;
use run_tallies::tally::Tally;
use scans::line::{Head, head_at};

// Rank, number of cells and the tally of the items.
#[derive(Clone, Copy, Debug, PartialEq, Eq)]
pub struct RunLine {
    pub rank: usize,
    pub size: usize,
    pub tally: Tally,
}

// A C line from its items on.
fn body_at(
    text: &[u8],
    head: Head,
    times: &mut [u16; 64],
    marks: &mut [u8; 64],
) -> Result<RunLine, Broken>
    requires { head.next ≤ length text.now }
    ensures { RunsScanned text.now (read_body head.rank head.count (drop head.next text.now)) (begun_runs (drop head.next text.now))
        times.old marks.old times.new marks.new result }
{
    let Items { feed, tally } = items_at(text, head.next, head.rank, times, marks)?;
    if feed + 1 < text.len() {
        return Err(Broken { place: feed + 1 });
    }
    Ok(RunLine {
        rank: head.rank,
        size: head.count,
        tally,
    })
}

// A whole C line. The counts and marks of the items that were read, before a break too, are in the two tables by letter, over what they held.
pub fn scan_runs(
    text: &[u8],
    times: &mut [u16; 64],
    marks: &mut [u8; 64],
) -> Result<RunLine, Broken>
    ensures { RunsScanned text.now (read_c text.now) (whole_runs text.now)
        times.old marks.old times.new marks.new result }
{
    let head = head_at(text, b'C', true)?;
    body_at(text, head, times, marks)
}
