// Products held to plain insertion: words are cut in two, the kernel multiplies the tableaux of both parts, and the product is compared with the tableau of the
// whole word. Each word of at most 6 letters over 1 to 3 is cut at every place: so every two tableaux over 1 to 3 with at most 6 cells together are
// multiplied, once for their column readings and once for any other two words of their classes. Each word of plain_words is cut at one place.
ghost use Rattle.std.specs.Prelude.{◌≤◌, min};

use crate::comparing::{Comparison, Fault};
use crate::kernel::{lent, written};
use multiplication::product::product;
use plain_words::Word;
use plain_words::insertion::{Tableau, plain_tableau};

// The kernel's product of two tableaux.
fn multiplied(first: &Tableau, second: &Tableau) -> Result<Tableau, Fault> {
    let mut letters = [0; 1024];
    let mut marks = [0; 1024];
    let mut counts = [65535; 64];
    let count = product(
        &lent(first),
        &lent(second),
        &mut letters,
        &mut marks,
        &mut counts,
    )?;
    written(&letters, count)?;
    written(&marks, count)?;
    Ok(Tableau {
        rank: first.rank,
        length: count,
        letters,
        marks,
        counts,
    })
}

// The kernel's product of the tableaux of a word's first letters and of all others.
fn product_at(cut: usize, word: &Word) -> Result<Tableau, Fault>
    requires { cut ≤ min word.now.length 1024 }
{
    let (first, second) = word.letters().split_at(cut);
    multiplied(
        &plain_tableau(&Word::new(word.rank, first)),
        &plain_tableau(&Word::new(word.rank, second)),
    )
}

// A word cut at a place.
pub(crate) fn compare_cut(products: &mut Comparison, cut: usize, word: &Word)
    requires { cut ≤ min word.now.length 1024 }
{
    products.compare(&Ok(plain_tableau(word)), &product_at(cut, word));
    products.count_one();
}

// A word cut at every place.
pub(crate) fn compare_cuts(products: &mut Comparison, word: &Word) {
    for cut in 0..word.letters().len() + 1 {
        compare_cut(products, cut, word);
    }
}

// Four answers are spoilt for 31 times 2: the count of cells, the letters, the marks and the counts.
pub(crate) fn spoil_products(products: &mut Comparison, word: &Word) {
    let Ok(told) = product_at(word.letters().len().min(2), word) else {
        return;
    };
    let own = || plain_tableau(word);
    products.spoil(own(), &told, |tableau| {
        tableau.lengthen();
    });
    products.spoil(own(), &told, |tableau| tableau.letters[0] = 200);
    products.spoil(own(), &told, |tableau| tableau.marks[0] = 200);
    products.spoil(own(), &told, |tableau| tableau.counts[0] = 5000);
}
