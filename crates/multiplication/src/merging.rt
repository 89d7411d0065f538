// The junction set of the product of two tableaux, by shifts and masks from the largest letter down: from the letter counts of both factors and the letters
// that a down step leads out of in each.
ghost use Rattle.std.specs.Prelude.{◌≤◌, ◌≡◌};
ghost use Rattle.multiplication.specs.Merging.{Merged, product_bit};

// Whether the product has a junction at a letter, from how often the next larger letter stands in each factor: that one stands in the first, and a down step
// leads out of the letter there or the letter stands in the second; or it stands in the second, and a down step leads out of the letter there.
#[tactic(auto, unfolding(crate::specs::Merging::product_bit))]
fn product_bit(
    first_next: u16,
    second_next: u16,
    first_down: bool,
    second_count: u16,
    second_down: bool,
) -> bool
    ensures { result ≡ product_bit first_next second_next first_down second_count second_down }
{
    let from_first = (0 < first_next) & (first_down | (0 < second_count));
    let within_second = (0 < second_next) & second_down;
    from_first | within_second
}

// The tables of a factor: how often each letter stands in it, and whether a down step leads out of the letter.
#[derive(Drop)]
pub(crate) struct Factor<'a> {
    pub counts: &'a [u16; 64],
    pub downs: [bool; 64],
}

// The junction set of the product, from the tables of both factors. How often the next larger letter of either stands in each factor is kept in `first_next`
// and `second_next`, 0 and 0 where there is none.
pub(crate) fn merged_set(rank: usize, first: &Factor, second: &Factor) -> u64
    requires { rank ≤ 64 }
    ensures { Merged rank first.now.counts.now first.now.downs second.now.counts.now second.now.downs result }
{
    let mut set = 0;
    let mut first_next = 0;
    let mut second_next = 0;
    for a in (0..rank).rev() {
        let first_count = first.counts[a];
        let second_count = second.counts[a];
        let bit = product_bit(
            first_next,
            second_next,
            first.downs[a],
            second_count,
            second.downs[a],
        );
        set = (set << 1) | u64::from(bit);
        if (0 < first_count) | (0 < second_count) {
            first_next = first_count;
            second_next = second_count;
        }
    }
    set
}
