// The step of the comparison (document 02, N2): it sees four numbers, the sums of the first k counts of two words and the count that comes next in each.
ghost use Rattle.std.specs.Prelude.{◌≤◌};
ghost use Rattle.weight_sums.specs.Sums.{Grown, Stepped};

// The sums of the first k counts, of the first word and of the second.
#[derive(Clone, Copy)]
pub(crate) struct Sums {
    pub first: usize,
    pub second: usize,
}

// From both sums and the next count of each word: the sums of the first k + 1 counts. What is asked holds of the sums of any 64 numbers of 16 bits, and so of
// those of all accepted words, which have at most 1,024 letters.
pub(crate) fn next_sums(sums: Sums, first_count: u16, second_count: u16) -> Sums
    requires { (sums.first ≤ 4194304) × (sums.second ≤ 4194304) }
    ensures { Stepped sums.first sums.second first_count second_count result.first result.second
        × Grown sums.first result.first
        × Grown sums.second result.second }
{
    Sums {
        first: sums.first + usize::from(first_count),
        second: sums.second + usize::from(second_count),
    }
}
