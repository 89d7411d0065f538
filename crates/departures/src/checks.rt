// The checks of a departure, in the order of insertion's: 1 2 3 4 5 6 17 7 8, and then 18. The used cells can be looked at once 1, 2 and 3 have passed; they
// are then judged as a stored pair is.
ghost use Rattle.std.specs.Prelude.{◌≡◌};
ghost use Rattle.refusals.specs.Said.{said_verdict};
ghost use Rattle.admissions.specs.Checks.{HasUsed, lists};
ghost use Rattle.departures.specs.Checks.{cell_checks, depart_checks};

use admissions::checks::{check_sizes, used_cells};
use lent::tableaux::CountedPair;
use refusals::refusal::Refusal;
use validity::counted::check_counted_pair;

// 4 to 8 and 17 of the used cells, and 18, once 1, 2 and 3 have passed. They pass again of the used cells alone.
#[tactic(auto, using(crate::specs::Checks::used_counted), unfolding(refusals::specs::Running::checks_then, windows::specs::Departures::empty_judged))]
fn check_used_cells(pair: &CountedPair, used: usize) -> Result<(), Refusal>
    requires { HasUsed used pair.now }
    ensures { said_verdict result ≡ cell_checks pair.now.rank used (lists pair.now) pair.now.counts.now }
{
    check_counted_pair(&used_cells(pair, used))?;
    if used == 0 {
        return Err(Refusal::Empty);
    }
    Ok(())
}

// All checks of a departure.
#[tactic(auto, using(admissions::specs::Checks::sized), unfolding(refusals::specs::Running::checks_then, crate::specs::Checks::depart_checks))]
pub(crate) fn check_departure(pair: &CountedPair, used: usize) -> Result<(), Refusal>
    ensures { said_verdict result ≡ depart_checks pair.now.rank used (lists pair.now) pair.now.counts.now }
{
    check_sizes(
        pair.rank,
        used,
        pair.letters.len(),
        pair.marks.len(),
        pair.entries.len(),
    )?;
    check_used_cells(pair, used)
}
