// Words held to plain insertion: the pair of each, and what word and pair lead to, which is one answer too.
use crate::comparing::{Comparison, Fault};
use crate::junctions::junction_set;
use crate::kernel::{lent, lent_pair, pair_at_once, pair_by_letters, written};
use crate::picture::{read_columns, rows_of};
use columns::reading::column_reading;
use inverses::way_back::word_of_pair;
use plain_words::Word;
use plain_words::insertion::{Pair, plain_pair};
use refusals::answers::Junctions;
use words::junctions::junctions;

// What word and pair lead to: junction set and rows, the word back from the pair, and the column reading.
#[derive(Clone, Copy, Debug, PartialEq, Eq)]
struct Led {
    junctions: Junctions,
    word: Word,
    reading: Word,
}

// The way back leads to the word.
fn plain_led(word: &Word, pair: &Pair) -> Led {
    Led {
        junctions: Junctions {
            set: junction_set(word.letters()),
            rows: rows_of(&pair.tableau),
        },
        word: *word,
        reading: read_columns(&pair.tableau),
    }
}

// What word and pair lead to in the kernel.
fn kernel_led(word: &Word, pair: &Pair) -> Result<Led, Fault> {
    let mut back = [0; 1024];
    let letters = word_of_pair(&lent_pair(pair), &mut back)?;
    let mut reading = [0; 1024];
    let read = column_reading(&lent(&pair.tableau), &mut reading)?;
    Ok(Led {
        junctions: junctions(word.rank, word.letters())?,
        word: Word::new(word.rank, written(&back, letters)?),
        reading: Word::new(word.rank, written(&reading, read)?),
    })
}

// The pair of a word in the kernel, and what it leads to there.
fn compare_pair(words: &mut Comparison, word: &Word, own: &Pair, told: &Result<Pair, Fault>) {
    match told {
        Ok(pair) => {
            words.compare(own, pair);
            words.compare(&Ok(plain_led(word, own)), &kernel_led(word, pair));
        }
        // what it leads to is not asked of a pair that is none
        Err(_) => words.compare(&false, &true),
    }
}

// One word: by its pair made at once and, for a word of at most 64 letters, by its pair made letter by letter.
pub(crate) fn compare_answers(words: &mut Comparison, word: &Word) {
    let own = plain_pair(word);
    compare_pair(words, word, &own, &pair_at_once(word));
    if word.letters().len() <= 64 {
        compare_pair(words, word, &own, &pair_by_letters(word));
    }
    words.count_one();
}

// Eight answers are spoilt for 4323: letters, marks, counts and entries of its pair, and all that these lead to.
pub(crate) fn spoil_answers(words: &mut Comparison, word: &Word) {
    let own = || plain_pair(word);
    let Ok(pair) = pair_at_once(word) else {
        return;
    };
    words.spoil(own(), &pair, |pair| pair.tableau.letters[0] = 200);
    words.spoil(own(), &pair, |pair| pair.tableau.marks[0] = 200);
    words.spoil(own(), &pair, |pair| pair.tableau.counts[0] = 5000);
    words.spoil(own(), &pair, |pair| pair.entries[0] = 5000);
    let own = || plain_led(word, &plain_pair(word));
    let Ok(led) = kernel_led(word, &pair) else {
        return;
    };
    words.spoil(own(), &led, |led| led.junctions.set = 5000);
    words.spoil(own(), &led, |led| led.junctions.rows = 5000);
    words.spoil(own(), &led, |led| led.word.letters[0] = 200);
    words.spoil(own(), &led, |led| led.reading.letters[0] = 200);
}
