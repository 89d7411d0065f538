// The checks of the values of a C line by the tally of its items.
ghost use Rattle.std.specs.Prelude.{◌≡◌};
ghost use Rattle.outcomes.specs.Replies.{first, passed};
ghost use Rattle.refusals.specs.Said.{said_verdict};
ghost use Rattle.run_tallies.specs.Tallies.{tally_judgements, tally_says};

use crate::tally::Tally;
use refusals::chains::check_limits;
use refusals::numbers::refuse_if;
use refusals::refusal::Refusal;

// 4, 19 and 20: each lead is below the number of items where there is a fault, and is the faulty item's index.
fn check_items(size: usize, tally: Tally) -> Result<(), Refusal>
    ensures { said_verdict result ≡ first (tally_judgements size tally) passed }
{
    refuse_if(tally.inside < tally.items, Refusal::Letter(tally.inside))?;
    refuse_if(tally.rising < tally.items, Refusal::Item(tally.rising))?;
    refuse_if(tally.sum != size, Refusal::Sum)
}

// 1, 2, 4, 19 and 20 of rank, number of cells and items with this tally. A sum above 1,024 is told from every number of cells that passes 2.
#[tactic(auto, unfolding(crate::specs::Tallies::tally_says))]
pub fn check_tally(rank: usize, size: usize, tally: Tally) -> Result<(), Refusal>
    ensures { said_verdict result ≡ tally_says rank size tally }
{
    check_limits(rank, size)?;
    check_items(size, tally)
}
