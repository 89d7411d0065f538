// Whole lines, read by the grammar alone: the letter of the kind, the rank where the kind has one, how many items, the items, the line feed, nothing after it.
ghost use Rattle.std.specs.Prelude.{◌≤◌, drop, length, false};
ghost use Rattle.grammar.specs.Reading.{after, ended};
ghost use Rattle.numerals.specs.Numbers.{Numbered};
ghost use Rattle.scans.specs.Heads.{Ended, Lined, read_head, read_rank};
ghost use Rattle.scans.specs.Scans.{Scanned, read_body, read_whole, whole_cells};
ghost use Rattle.scans.specs.Items.{begun};

use crate::cells::cells_at;
use numerals::numbers::{Broken, Number, field_at, stands};

// Rank, number of items and the place after what was read.
#[derive(Clone, Copy, Debug, PartialEq, Eq)]
pub struct Head {
    pub rank: usize,
    pub count: usize,
    pub next: usize,
}

// The rank of a line that has one; 0, and nothing is read, of another.
// Kept: `ranked`, and `steps` below, are facts of a kind of line, as `read_rank` and `read_whole` take them.
fn rank_at(text: &[u8], at: usize, ranked: bool) -> Result<Number, Broken>
    requires { at ≤ length text.now }
    ensures { Numbered text.now (read_rank ranked (drop at text.now)) result }
{
    if ranked {
        field_at(text, at)
    } else {
        Ok(Number { value: 0, next: at })
    }
}

// The beginning of a line up to its items.
// Kept: `ranked` is a fact of a kind of line, as `read_head` takes it.
pub fn head_at(text: &[u8], kind: u8, ranked: bool) -> Result<Head, Broken>
    ensures { Lined text.now (read_head kind ranked text.now) result }
{
    if !stands(text, 0, kind) {
        return Err(Broken { place: 0 });
    }
    let rank = rank_at(text, 1, ranked)?;
    let count = field_at(text, rank.next)?;
    Ok(Head {
        rank: usize::from(rank.value),
        count: usize::from(count.value),
        next: count.next,
    })
}

// The line feed, and nothing after it: the place after it.
fn end_at(text: &[u8], at: usize) -> Result<usize, Broken>
    requires { at ≤ length text.now }
    ensures { Ended text.now (after 10 ended (drop at text.now)) result }
{
    if !stands(text, at, b'\n') {
        return Err(Broken { place: at });
    }
    let next = at + 1;
    if next < text.len() {
        return Err(Broken { place: next });
    }
    Ok(next)
}

// A line from its items on.
// Kept: `steps` is a fact of a kind of line, as `read_body` takes it.
pub(crate) fn body_at(
    text: &[u8],
    head: Head,
    steps: bool,
    letters: &mut [u16],
    marks: &mut [u8],
) -> Result<Head, Broken>
    requires { head.next ≤ length text.now }
    ensures { Scanned text.now steps (read_body steps head.rank head.count (drop head.next text.now)) (begun false steps head.count (drop head.next text.now))
        letters.old marks.old letters.new marks.new result }
{
    let feed = cells_at(text, head.next, head.count, steps, letters, marks)?;
    let next = end_at(text, feed)?;
    Ok(Head { next, ..head })
}

// A whole line of a kind. The letters that fit are kept, and on a line with steps the marks that fit; a line without steps leaves the marks as they were.
// Kept: `ranked` and `steps` are facts of a kind of line, as `read_whole` takes them.
pub fn scan_line(
    text: &[u8],
    kind: u8,
    ranked: bool,
    steps: bool,
    letters: &mut [u16],
    marks: &mut [u8],
) -> Result<Head, Broken>
    ensures { Scanned text.now steps (read_whole kind ranked steps text.now) (whole_cells kind ranked steps text.now)
        letters.old marks.old letters.new marks.new result }
{
    let head = head_at(text, kind, ranked)?;
    body_at(text, head, steps, letters, marks)
}
