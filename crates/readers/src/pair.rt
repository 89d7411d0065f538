// The reader of P lines: the pair of a line into lent letters, marks and entries, and its letter counts.
ghost use Rattle.std.specs.Prelude.{◌≡◌, length};
ghost use Rattle.hypoplactic.specs.Insertion.{pair_with};
ghost use Rattle.outcomes.specs.Judgements.{pair_judgements, pair_rooms};
ghost use Rattle.outcomes.specs.LineReadings.{pair_read, read_p_run};
ghost use Rattle.refusals.specs.Running.{checks_then};
ghost use Rattle.refusals.specs.Said.{said_sizes, said_verdict};

use buffers::copies::copy;
use lent::tableaux::Pair;
use line_items::letters::narrow_letters;
use line_items::room::{no_letters, no_marks};
use refusals::answers::Sizes;
use refusals::chains::{check_limits, check_pair_rooms};
use refusals::refusal::Refusal;
use scans::line::Head;
use scans::pair::scan_pair;
use validity::tableau::check_pair;
use words::tables::letter_counts;

// 1 to 8 of a pair that was read, and 13 of lent letters, marks and entries.
fn check_pair_read(pair: &Pair, letters: usize, marks: usize, entries: usize) -> Result<(), Refusal>
    ensures { said_verdict result
        ≡ checks_then (pair_judgements pair.now.rank pair.now.letters.now pair.now.marks.now pair.now.entries.now)
        (pair_rooms (length pair.now.letters.now) letters marks entries) }
{
    check_pair(pair)?;
    check_pair_rooms(pair.letters.len(), letters, marks, entries)
}

// A pair that was read, into lent letters, marks, entries and letter counts.
fn store_pair(
    pair: &Pair,
    letters: &mut [u8],
    marks: &mut [u8],
    entries: &mut [u16],
    counts: &mut [u16; 64],
) -> Result<Sizes, Refusal>
    ensures { (said_sizes result, (pair_with letters.new marks.new entries.new, counts.new))
        ≡ pair_read (pair_with letters.old marks.old entries.old) counts.old
        pair.now.rank pair.now.letters.now pair.now.marks.now pair.now.entries.now }
{
    check_pair_read(pair, letters.len(), marks.len(), entries.len())?;
    copy(pair.letters, letters);
    copy(pair.marks, marks);
    copy(pair.entries, entries);
    *counts = letter_counts(pair.rank, pair.letters);
    Ok(Sizes {
        rank: pair.rank,
        count: pair.letters.len(),
    })
}

// The pair of a P line into lent letters, marks, entries and letter counts, or the refusal of 14, 1 to 8 or 13, which leaves them as they were.
pub fn read_pair_line(
    text: &[u8],
    letters: &mut [u8],
    marks: &mut [u8],
    entries: &mut [u16],
    counts: &mut [u16; 64],
) -> Result<Sizes, Refusal>
    ensures { (said_sizes result, (pair_with letters.new marks.new entries.new, counts.new))
        ≡ read_p_run text.now (pair_with letters.old marks.old entries.old)
        counts.old }
{
    let mut values = no_letters();
    let mut steps = no_marks();
    let mut places = no_letters();
    match scan_pair(text, &mut values, &mut steps, &mut places) {
        Err(broken) => Err(Refusal::Line(broken.place)),
        Ok(Head { rank, count, .. }) => {
            check_limits(rank, count)?;
            let bytes = narrow_letters(&values[..count]);
            let pair = Pair {
                rank,
                letters: &bytes[..count],
                marks: &steps[..count],
                entries: &places[..count],
            };
            store_pair(&pair, letters, marks, entries, counts)
        }
    }
}
