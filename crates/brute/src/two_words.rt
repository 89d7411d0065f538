// Class and weights of two words (document 01, "Same class" and "Weights"; document 02, N5), by plain insertion of both words and plain counting, and in the
// kernel, of the words and of their tableaux.
use crate::kernel::lent;
use classes::two_words::same_class;
use plain_words::Word;
use plain_words::insertion::Tableau;
use refusals::refusal::Refusal;
use std::cmp::Ordering;
use stored_tableaux::two_tableaux::{compare_weights_of_tableaux, same_class_of_tableaux};
use weights::two_words::compare_weights;

// Whether two words or tableaux are of one class, and the first weight against the second.
#[derive(Clone, Copy, Debug, PartialEq, Eq)]
pub(crate) struct Two {
    pub class: Result<bool, Refusal>,
    pub weights: Result<Option<Ordering>, Refusal>,
}

// The first weight against the second, by the sums of the counts up to each letter: lower where some sum is smaller, higher where some is larger.
fn plain_weights(one: &Tableau, other: &Tableau) -> Option<Ordering> {
    let mut sum = 0u16;
    let mut other_sum = 0u16;
    let mut smaller = false;
    let mut larger = false;
    for (count, other_count) in one.counts.iter().zip(&other.counts) {
        sum = sum.wrapping_add(*count);
        other_sum = other_sum.wrapping_add(*other_count);
        smaller |= sum < other_sum;
        larger |= other_sum < sum;
    }
    match (smaller, larger) {
        (false, false) => Some(Ordering::Equal),
        (true, false) => Some(Ordering::Less),
        (false, true) => Some(Ordering::Greater),
        (true, true) => None,
    }
}

// The answer for two words by their tableaux, whatever their ranks.
pub(crate) fn plain_two(one: &Tableau, other: &Tableau) -> Two {
    Two {
        class: Ok(one.letters() == other.letters() && one.marks() == other.marks()),
        weights: Ok(plain_weights(one, other)),
    }
}

// The kernel's answer for two words.
pub(crate) fn words_told(one: &Word, other: &Word) -> Two {
    Two {
        class: same_class(one.rank, one.letters(), other.rank, other.letters()),
        weights: compare_weights(one.rank, one.letters(), other.rank, other.letters()),
    }
}

// The kernel's answer for two tableaux.
pub(crate) fn tableaux_told(one: &Tableau, other: &Tableau) -> Two {
    let one = lent(one);
    let other = lent(other);
    Two {
        class: same_class_of_tableaux(&one, &other),
        weights: compare_weights_of_tableaux(&one, &other),
    }
}
