// The C interface to two tableaux, each with its letter counts: their product, and whether they are of one class and how their weights compare. Each function is
// one of the kernel's, its answer as a struct of numbers.
ghost use Rattle.std.specs.Prelude.{◌≡◌};
ghost use Rattle.letter_counts.specs.TwoTableaux.{same_class_tableaux_says, weights_tableaux_says};
ghost use Rattle.products.specs.Products.{product_run};
ghost use Rattle.structs.specs.Replies.{class_of, count_of, order_of, replied};

use lent::tableaux::CountedTableau;
use multiplication::product::product;
use stored_tableaux::two_tableaux::{compare_weights_of_tableaux, same_class_of_tableaux};
use structs::replies::{ClassReply, CountReply, OrderReply};

// The product of two tableaux of one rank, into lent letters, marks and counts.
#[unsafe(no_mangle)]
pub extern "C" fn luchtrav_product(
    rank: usize,
    first_letters: &[u8],
    first_marks: &[u8],
    first_counts: &[u16; 64],
    second_letters: &[u8],
    second_marks: &[u8],
    second_counts: &[u16; 64],
    letters: &mut [u8],
    marks: &mut [u8],
    counts: &mut [u16; 64],
) -> CountReply
    ensures { (result, (letters.new, (marks.new, counts.new)))
        ≡ replied count_of
        (product_run
        rank
        first_letters.now
        first_marks.now
        first_counts.now
        second_letters.now
        second_marks.now
        second_counts.now
        letters.old
        marks.old
        counts.old) }
{
    let one = CountedTableau {
        rank,
        letters: first_letters,
        marks: first_marks,
        counts: first_counts,
    };
    let other = CountedTableau {
        rank,
        letters: second_letters,
        marks: second_marks,
        counts: second_counts,
    };
    CountReply::from(product(&one, &other, letters, marks, counts))
}

// Whether two tableaux are of one class.
#[unsafe(no_mangle)]
pub extern "C" fn luchtrav_same_class_of_tableaux(
    first_rank: usize,
    first_letters: &[u8],
    first_marks: &[u8],
    first_counts: &[u16; 64],
    second_rank: usize,
    second_letters: &[u8],
    second_marks: &[u8],
    second_counts: &[u16; 64],
) -> ClassReply
    ensures { result
        ≡ class_of
        (same_class_tableaux_says
        first_rank
        first_letters.now
        first_marks.now
        first_counts.now
        second_rank
        second_letters.now
        second_marks.now
        second_counts.now) }
{
    let one = CountedTableau {
        rank: first_rank,
        letters: first_letters,
        marks: first_marks,
        counts: first_counts,
    };
    let other = CountedTableau {
        rank: second_rank,
        letters: second_letters,
        marks: second_marks,
        counts: second_counts,
    };
    ClassReply::from(same_class_of_tableaux(&one, &other))
}

// The weight of the first tableau against that of the second.
#[unsafe(no_mangle)]
pub extern "C" fn luchtrav_compare_weights_of_tableaux(
    first_rank: usize,
    first_letters: &[u8],
    first_marks: &[u8],
    first_counts: &[u16; 64],
    second_rank: usize,
    second_letters: &[u8],
    second_marks: &[u8],
    second_counts: &[u16; 64],
) -> OrderReply
    ensures { result
        ≡ order_of
        (weights_tableaux_says
        first_rank
        first_letters.now
        first_marks.now
        first_counts.now
        second_rank
        second_letters.now
        second_marks.now
        second_counts.now) }
{
    let one = CountedTableau {
        rank: first_rank,
        letters: first_letters,
        marks: first_marks,
        counts: first_counts,
    };
    let other = CountedTableau {
        rank: second_rank,
        letters: second_letters,
        marks: second_marks,
        counts: second_counts,
    };
    OrderReply::from(compare_weights_of_tableaux(&one, &other))
}
