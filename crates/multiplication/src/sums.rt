// The letter counts of a product: those of both factors, added.
ghost use Rattle.multiplication.specs.Sums.{SumsFit, Sums};

// The sums of two tables of counts, letter by letter.
#[tactic(auto, using(crate::specs::Sums::summing))]
pub(crate) fn sum_counts(one: &[u16; 64], other: &[u16; 64]) -> [u16; 64]
    requires { SumsFit one.now other.now }
    ensures { Sums one.now other.now result }
{
    std::array::from_fn(|j| one[j] + other[j])
}
