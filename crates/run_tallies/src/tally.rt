// The tally of the items of a C line that are read so far: all that its checks ask of them.
ghost use Rattle.std.specs.Prelude.{◌+◌, ◌≡◌, ◌||◌, eqb, leb};
ghost use Rattle.outcomes.specs.Judgements.{outside};
ghost use Rattle.run_tallies.specs.Tallies.{Added, Fresh, capped, lead_after, next_count};

// How many items there are; how many before the first whose letter is outside the rank; how many before the first whose letter is not above the one before it
// or whose count is 0; the last letter, 0 before the first item; the sum of the counts, 1,025 where it is larger.
#[derive(Clone, Copy, Debug, PartialEq, Eq)]
pub struct Tally {
    pub items: usize,
    pub inside: usize,
    pub rising: usize,
    pub last: u16,
    pub sum: usize,
}

// Before the first item.
pub fn no_items() -> Tally
    ensures { Fresh result }
{
    Tally {
        items: 0,
        inside: 0,
        rising: 0,
        last: 0,
        sum: 0,
    }
}

// Whether a letter is outside 1 to rank.
pub(crate) fn is_outside(rank: usize, letter: u16) -> bool
    ensures { result ≡ outside rank letter }
{
    letter < 1 || rank < usize::from(letter)
}

// Whether an item breaks 19 after the letter before it.
fn not_above(before: u16, letter: u16, times: u16) -> bool
    ensures { result ≡ (leb letter before || eqb times 0) }
{
    letter <= before || times == 0
}

// One item more. The number stays at 2 to the power 63, which no text has items for.
#[tactic(auto, unfolding(crate::specs::Tallies::next_count))]
fn next_count(items: usize) -> usize
    ensures { result ≡ next_count items }
{
    items.min(9223372036854775807) + 1
}

// How many of the items and one more stand before the first fault, by how many of the items do and whether there is a fault in the one more.
#[tactic(auto, unfolding(crate::specs::Tallies::lead_after))]
fn lead_after(fault: bool, lead: usize, items: usize) -> usize
    ensures { result ≡ lead_after fault lead items }
{
    if fault || lead < items {
        lead
    } else {
        next_count(items)
    }
}

// A sum and one count more, 1,025 where that is larger.
fn add_capped(sum: usize, times: u16) -> usize
    ensures { result ≡ capped (capped sum + times) }
{
    (sum.min(1025) + usize::from(times)).min(1025)
}

// The tally with one item more.
pub fn add_item(tally: Tally, rank: usize, letter: u16, times: u16) -> Tally
    ensures { Added rank letter times tally result }
{
    let outside = is_outside(rank, letter);
    let stopped = not_above(tally.last, letter, times);
    Tally {
        items: next_count(tally.items),
        inside: lead_after(outside, tally.inside, tally.items),
        rising: lead_after(stopped, tally.rising, tally.items),
        last: letter,
        sum: add_capped(tally.sum, times),
    }
}
