// The reader of T lines: the tableau of a line into lent letters and marks, and its letter counts.
ghost use Rattle.std.specs.Prelude.{[], ◌∷◌, ◌≡◌, length};
ghost use Rattle.outcomes.specs.Judgements.{room_judged, tableau_judgements};
ghost use Rattle.outcomes.specs.LineReadings.{read_t_run, tableau_read};
ghost use Rattle.refusals.specs.Running.{checks_then};
ghost use Rattle.refusals.specs.Said.{said_sizes, said_verdict};

use buffers::copies::copy;
use lent::tableaux::Tableau;
use line_items::letters::narrow_letters;
use line_items::room::{no_letters, no_marks};
use refusals::answers::Sizes;
use refusals::chains::check_limits;
use refusals::numbers::check_room;
use refusals::refusal::Refusal;
use scans::line::{Head, scan_line};
use validity::tableau::check_tableau;
use words::tables::letter_counts;

// 1 to 6 of a tableau that was read, and 13 of lent letters and marks.
fn check_tableau_read(tableau: &Tableau, letters: usize, marks: usize) -> Result<(), Refusal>
    ensures { said_verdict result
        ≡ checks_then (tableau_judgements tableau.now.rank tableau.now.letters.now tableau.now.marks.now)
        (room_judged (length tableau.now.letters.now) letters ∷ room_judged (length tableau.now.letters.now) marks ∷ []) }
{
    check_tableau(tableau)?;
    check_room(tableau.letters.len(), letters)?;
    check_room(tableau.letters.len(), marks)
}

// A tableau that was read, into lent letters, marks and letter counts.
fn store_tableau(
    tableau: &Tableau,
    letters: &mut [u8],
    marks: &mut [u8],
    counts: &mut [u16; 64],
) -> Result<Sizes, Refusal>
    ensures { (said_sizes result, (letters.new, (marks.new, counts.new)))
        ≡ tableau_read letters.old marks.old counts.old tableau.now.rank tableau.now.letters.now tableau.now.marks.now }
{
    check_tableau_read(tableau, letters.len(), marks.len())?;
    copy(tableau.letters, letters);
    copy(tableau.marks, marks);
    *counts = letter_counts(tableau.rank, tableau.letters);
    Ok(Sizes {
        rank: tableau.rank,
        count: tableau.letters.len(),
    })
}

// The tableau of a T line into lent letters, marks and letter counts, or the refusal of 14, 1 to 6 or 13, which leaves them as they were.
pub fn read_tableau_line(
    text: &[u8],
    letters: &mut [u8],
    marks: &mut [u8],
    counts: &mut [u16; 64],
) -> Result<Sizes, Refusal>
    ensures { (said_sizes result, (letters.new, (marks.new, counts.new)))
        ≡ read_t_run text.now letters.old marks.old counts.old }
{
    let mut values = no_letters();
    let mut steps = no_marks();
    match scan_line(text, b'T', true, true, &mut values, &mut steps) {
        Err(broken) => Err(Refusal::Line(broken.place)),
        Ok(Head { rank, count, .. }) => {
            check_limits(rank, count)?;
            let bytes = narrow_letters(&values[..count]);
            let tableau = Tableau {
                rank,
                letters: &bytes[..count],
                marks: &steps[..count],
            };
            store_tableau(&tableau, letters, marks, counts)
        }
    }
}
