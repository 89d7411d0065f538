// The writers of lines. Each judges its values, then the room for the bytes that it has counted, and only then writes; what stands in the output beyond the
// bytes of the line keeps its value.
ghost use Rattle.std.specs.Prelude.{◌≡◌};
ghost use Rattle.outcomes.specs.LineOperations.{e_line_run, j_line_run, p_line_run, t_line_run, w_line_run};
ghost use Rattle.refusals.specs.Said.{number, place, said_value};
ghost use Rattle.run_lines.specs.Operations.{c_line_run};

use crate::laying::{Cells, Letters, Number, Runs, write_line};
use acceptance::word::check_word;
use lent::tableaux::{Pair, Tableau};
use refusals::answers::Junctions;
use refusals::refusal::{Refusal, Returned};
use validity::tableau::{check_pair, check_tableau};
use words::junctions::junctions;

// The W line of a word: 1, 2 and 4, then 13.
#[tactic(auto, using(crate::specs::Runs::running))]
pub fn write_word_line(rank: usize, word: &[u8], out: &mut [u8]) -> Result<usize, Refusal>
    ensures { (said_value result, out.new) ≡ w_line_run rank word.now out.old }
{
    check_word(rank, word)?;
    write_line(b'W', rank, &Letters(word), out)
}

// The T line of a tableau: 1 to 6, then 13.
#[tactic(auto, using(crate::specs::Runs::running))]
pub fn write_tableau_line(tableau: &Tableau, out: &mut [u8]) -> Result<usize, Refusal>
    ensures { (said_value result, out.new)
        ≡ t_line_run tableau.now.rank tableau.now.letters.now tableau.now.marks.now out.old }
{
    check_tableau(tableau)?;
    write_line(b'T', tableau.rank, &Cells(*tableau), out)
}

// The C line of a tableau: 1 to 6, then 13.
#[tactic(auto, using(crate::specs::Runs::running))]
pub fn write_run_line(tableau: &Tableau, out: &mut [u8]) -> Result<usize, Refusal>
    ensures { (said_value result, out.new)
        ≡ c_line_run tableau.now.rank tableau.now.letters.now tableau.now.marks.now out.old }
{
    check_tableau(tableau)?;
    write_line(b'C', tableau.rank, &Runs(*tableau), out)
}

// The P line of a pair: 1 to 8, then 13.
#[tactic(auto, using(crate::specs::Runs::running))]
pub fn write_pair_line(pair: &Pair, out: &mut [u8]) -> Result<usize, Refusal>
    ensures { (said_value result, out.new)
        ≡ p_line_run pair.now.rank pair.now.letters.now pair.now.marks.now pair.now.entries.now out.old }
{
    check_pair(pair)?;
    write_line(b'P', pair.rank, pair, out)
}

// The J line of a word, with the junction set and the rows that the word has: 1, 2 and 4, then 13. No function writes a J line of other numbers.
#[tactic(auto, using(crate::specs::Runs::running))]
pub fn write_junction_line(rank: usize, word: &[u8], out: &mut [u8]) -> Result<usize, Refusal>
    ensures { (said_value result, out.new) ≡ j_line_run rank word.now out.old }
{
    let Junctions { set, rows } = junctions(rank, word)?;
    write_line(b'J', set as usize, &Number(rows), out)
}

// The E line of what was returned instead of a result, number and place, each written whole whatever its size: only 13.
#[tactic(auto, using(crate::specs::Runs::running))]
pub fn write_returned_line(returned: usize, at: usize, out: &mut [u8]) -> Result<usize, Refusal>
    ensures { (said_value result, out.new) ≡ e_line_run returned at out.old }
{
    write_line(b'E', returned, &Number(at), out)
}

// The E line of a refusal: only 13.
#[tactic(auto, using(crate::specs::Runs::running))]
pub fn write_refusal_line(refusal: Refusal, out: &mut [u8]) -> Result<usize, Refusal>
    ensures { (said_value result, out.new) ≡ e_line_run (number refusal) (place refusal) out.old }
{
    let Returned { number, place } = Returned::from(refusal);
    write_line(b'E', number, &Number(place), out)
}
