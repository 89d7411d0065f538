// The checks of insertion in rising number, each over the whole input. The used cells can be looked at once 1, 2 and 3 have passed; every later check is
// total and linear, and the first refusal counts.
ghost use Rattle.std.specs.Prelude.{◌+◌, ◌≤◌, ◌≡◌, [], ◌∷◌, ◌++◌, take};
ghost use Rattle.outcomes.specs.Replies.{first, passed};
ghost use Rattle.outcomes.specs.Judgements.{letters_judged};
ghost use Rattle.refusals.specs.Said.{said_verdict};
ghost use Rattle.admissions.specs.Checks.{HasUsed, cell_judgements, insert_checks, lists, room_judgements, size_judgements, used_checks};

use acceptance::letters::check_letters;
use counts::shape::check_counted_shape;
use lent::tableaux::CountedPair;
use refusals::chains::{check_limits, check_pair_rooms};
use refusals::numbers::{check_full, check_used};
use refusals::refusal::Refusal;
use validity::tableau::check_ribbon;

// 1, 2 and 3: what must pass before the used cells can be looked at.
pub fn check_sizes(
    rank: usize,
    used: usize,
    letters: usize,
    marks: usize,
    entries: usize,
) -> Result<(), Refusal>
    ensures { said_verdict result ≡ first (size_judgements rank used letters marks entries) passed }
{
    check_limits(rank, used)?;
    check_used(used, letters, marks, entries)
}

// The first cells of a pair, so many or as many as there are.
#[tactic(auto, using(std::proofs::lemmas::List::take_min))]
pub fn used_cells<'a>(pair: &CountedPair<'a>, used: usize) -> CountedPair<'a>
    ensures rank { result.rank ≡ pair.now.rank }
    ensures letters { result.letters.now ≡ take used pair.now.letters.now }
    ensures marks { result.marks.now ≡ take used pair.now.marks.now }
    ensures entries { result.entries.now ≡ take used pair.now.entries.now }
    ensures counts { result.counts.now ≡ pair.now.counts.now }
{
    CountedPair {
        rank: pair.rank,
        letters: &pair.letters[..used.min(pair.letters.len())],
        marks: &pair.marks[..used.min(pair.marks.len())],
        entries: &pair.entries[..used.min(pair.entries.len())],
        counts: pair.counts,
    }
}

// 4 of the used letters and then of the new one, whose place is their number.
#[tactic(auto, using(crate::specs::Checks::letters_last))]
fn check_all_letters(rank: usize, letter: usize, letters: &[u8]) -> Result<(), Refusal>
    ensures { said_verdict result ≡ letters_judged rank (letters.now ++ letter ∷ []) }
{
    check_letters(rank, letters)?;
    if letter < 1 || rank < letter {
        return Err(Refusal::Letter(letters.len()));
    }
    Ok(())
}

// 4 to 8 of the used cells, of which there are so many, and of the new letter, and 17 of the counts of the used letters.
fn check_cells(cells: &CountedPair, used: usize, letter: usize) -> Result<(), Refusal>
    ensures { said_verdict result
        ≡ first (cell_judgements cells.now.rank used letter (lists cells.now) cells.now.counts.now) passed }
{
    check_all_letters(cells.rank, letter, cells.letters)?;
    check_counted_shape(cells.letters, cells.marks, cells.counts)?;
    check_ribbon(used, cells.entries, cells.marks)
}

// 12 and 13: a free cell, and room for it in each of the three lists.
fn check_rooms(pair: &CountedPair, used: usize) -> Result<(), Refusal>
    requires { used ≤ 1024 }
    ensures { said_verdict result ≡ first (room_judgements used (used + 1) (lists pair.now)) passed }
{
    let need = used + 1;
    check_full(used)?;
    check_pair_rooms(
        need,
        pair.letters.len(),
        pair.marks.len(),
        pair.entries.len(),
    )
}

// 4 to 8 and 17, 12 and 13, once the used count is above none of the lengths.
#[tactic(auto, unfolding(refusals::specs::Running::checks_then))]
fn check_used_cells(pair: &CountedPair, used: usize, letter: usize) -> Result<(), Refusal>
    requires { HasUsed used pair.now }
    ensures { said_verdict result ≡ used_checks pair.now.rank used letter (lists pair.now) pair.now.counts.now }
{
    check_cells(&used_cells(pair, used), used, letter)?;
    check_rooms(pair, used)
}

// All checks of insertion: 1 to 6, 17, 7, 8, 12 and 13.
#[tactic(auto, using(crate::specs::Checks::sized), unfolding(refusals::specs::Running::checks_then))]
pub fn check_insertion(pair: &CountedPair, used: usize, letter: usize) -> Result<(), Refusal>
    ensures { said_verdict result ≡ insert_checks pair.now.rank used letter (lists pair.now) pair.now.counts.now }
{
    check_sizes(
        pair.rank,
        used,
        pair.letters.len(),
        pair.marks.len(),
        pair.entries.len(),
    )?;
    check_used_cells(pair, used, letter)
}
