// P lines, read by the grammar alone: after one number of cells so many cells with steps, then as many entries.
ghost use Rattle.std.specs.Prelude.{◌≤◌, false, true, drop, length};
ghost use Rattle.scans.specs.Items.{begun};
ghost use Rattle.scans.specs.PairScans.{PairScanned, pair_cells, pair_entries, part_entries, read_pair, read_parts};

use crate::cells::cells_at;
use crate::line::{Head, body_at, head_at};
use numerals::numbers::Broken;

// A P line from its cells on: what follows them is a line without steps from its items on, and leaves the marks as they are.
fn parts_at(
    text: &[u8],
    head: Head,
    letters: &mut [u16],
    marks: &mut [u8],
    entries: &mut [u16],
) -> Result<Head, Broken>
    requires { head.next ≤ length text.now }
    ensures { PairScanned text.now (read_parts head.rank head.count (drop head.next text.now))
        (begun false true head.count (drop head.next text.now)) (part_entries head.count (drop head.next text.now))
        letters.old marks.old entries.old letters.new marks.new entries.new result }
{
    let next = cells_at(text, head.next, head.count, true, letters, marks)?;
    body_at(text, Head { next, ..head }, false, entries, marks)
}

// A whole P line. The letters, marks and entries that fit are kept.
pub fn scan_pair(
    text: &[u8],
    letters: &mut [u16],
    marks: &mut [u8],
    entries: &mut [u16],
) -> Result<Head, Broken>
    ensures { PairScanned text.now (read_pair text.now) (pair_cells text.now) (pair_entries text.now)
        letters.old marks.old entries.old letters.new marks.new entries.new result }
{
    let head = head_at(text, b'P', true)?;
    parts_at(text, head, letters, marks, entries)
}
