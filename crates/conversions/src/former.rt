// A T text and an N text, which were written of one pair by a version without P lines, as the pair's P line. Both texts are scanned into local memory, what
// the scans answer is taken apart by `let else`, then their values are judged as one pair and written.
ghost use Rattle.std.specs.Prelude.{[], ◌∷◌, ◌≡◌};
ghost use Rattle.former_lines.specs.Conversion.{convert_run};
ghost use Rattle.outcomes.specs.Judgements.{length_judged, rank_judged};
ghost use Rattle.outcomes.specs.Replies.{first, passed};
ghost use Rattle.refusals.specs.Said.{said_verdict, said_value};
ghost use Rattle.conversions.specs.Values.{Roomed, values_run};

use lent::tableaux::Pair;
use line_items::letters::narrow_letters;
use line_items::room::{no_letters, no_marks};
use refusals::chains::check_limits;
use refusals::numbers::check_length;
use refusals::refusal::Refusal;
use scans::line::scan_line;
use writers::line::write_pair_line;

// 1 and 2 of a tableau that was read, and 2 of the entries beside it.
fn check_counts(rank: usize, cells: usize, entries: usize) -> Result<(), Refusal>
    ensures { said_verdict result ≡ first (rank_judged rank ∷ length_judged cells ∷ length_judged entries ∷ []) passed }
{
    check_limits(rank, cells)?;
    check_length(entries)
}

// The values of both lines, of which memory holds as many items as it has places: their P line, or the refusal of 1 to 8 or 13.
#[tactic(auto, using(crate::specs::Values::valuing))]
fn write_values(
    rank: usize,
    cells: usize,
    count: usize,
    letters: &[u16],
    marks: &[u8],
    entries: &[u16],
    out: &mut [u8],
) -> Result<usize, Refusal>
    requires { Roomed letters.now marks.now entries.now }
    ensures { (said_value result, out.new)
        ≡ values_run rank cells count letters.now marks.now entries.now out.old }
{
    check_counts(rank, cells, count)?;
    let bytes = narrow_letters(&letters[..cells]);
    write_pair_line(
        &Pair {
            rank,
            letters: &bytes[..cells],
            marks: &marks[..cells],
            entries: &entries[..count],
        },
        out,
    )
}

// The P line of a T text and an N text, or the refusal of 14, 1 to 8 or 13, which leaves lent memory as it was. The places of 14 in the second text count on
// from the first's bytes.
#[tactic(auto, using(crate::specs::Conversions::converting))]
pub fn convert_lines(tableau: &[u8], recording: &[u8], out: &mut [u8]) -> Result<usize, Refusal>
    ensures { (said_value result, out.new) ≡ convert_run tableau.now recording.now out.old }
{
    let mut letters = no_letters();
    let mut marks = no_marks();
    let mut entries = no_letters();
    // An N line tells no marks, so none are lent.
    let mut none = [0u8; 0];
    let first = scan_line(tableau, b'T', true, true, &mut letters, &mut marks);
    let Ok(tableau_head) = first else {
        return Err(Refusal::Line(first.unwrap_err().place));
    };
    let second = scan_line(recording, b'N', false, false, &mut entries, &mut none);
    let Ok(recording_head) = second else {
        return Err(Refusal::Line(tableau.len() + second.unwrap_err().place));
    };
    write_values(
        tableau_head.rank,
        tableau_head.count,
        recording_head.count,
        &letters,
        &marks,
        &entries,
        out,
    )
}
