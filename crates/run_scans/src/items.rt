// The items of a C line, up to its line feed.
ghost use Rattle.std.specs.Prelude.{◌≤◌, drop, length};
ghost use Rattle.run_scans.specs.Items.{ItemsTold};

use crate::runs::run_at;
use numerals::numbers::{Broken, stands};
use run_tallies::tables::keep;
use run_tallies::tally::{Tally, add_item, no_items};

// The place of the line feed, and the tally of the items before it.
#[derive(Clone, Copy, Debug, PartialEq, Eq)]
pub(crate) struct Items {
    pub feed: usize,
    pub tally: Tally,
}

// The items from a place on. Counts and marks are kept in the two tables by letter. Where the text ends, no item is read.
pub(crate) fn items_at(
    text: &[u8],
    from: usize,
    rank: usize,
    times: &mut [u16; 64],
    marks: &mut [u8; 64],
) -> Result<Items, Broken>
    requires { from ≤ length text.now }
    ensures { ItemsTold text.now (drop from text.now) rank
        times.old marks.old times.new marks.new result }
{
    let mut tally = no_items();
    let mut stepped = false;
    let mut at = from;
    // Kept: a turn goes on by an item, which is as long as it is.
    while !stands(text, at, b'\n') {
        let item = run_at(text, at, stepped)?;
        keep(times, item.letter, item.times);
        keep(marks, item.letter, item.mark);
        tally = add_item(tally, rank, item.letter, item.times);
        stepped = true;
        at = item.next;
    }
    Ok(Items { feed: at, tally })
}
