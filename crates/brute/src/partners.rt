// A second word beside each word, in six ways: another drawn word; two neighbours exchanged; two neighbours that a step of rewriting exchanges; the same word;
// the word after a move; one letter more, which the first word's rank does not have. In the last five its rank is 64, or the first word's, in the sixth the next.
use crate::scanning::plain_move;
use operators::changes::Side;
use plain_words::drawn::Generator;
use plain_words::{Word, word_of};

// How the second word comes from the first.
#[derive(Clone, Copy, Debug)]
enum Partner {
    Drawn,
    Exchanged,
    Rewritten,
    Same,
    Moved,
    Above,
}

const PARTNERS: [Partner; 6] = [
    Partner::Drawn,
    Partner::Exchanged,
    Partner::Rewritten,
    Partner::Same,
    Partner::Moved,
    Partner::Above,
];

// Exchanges the letter at a place and the one before it; not where there are no two such.
fn exchange(place: usize, word: &mut Word) {
    if 0 < place && place < word.letters().len() {
        word.letters.swap(place - 1, place);
    }
}

// Whether a letter is at least one of two others and below the other one.
fn parts(b: u8, one: u8, other: u8) -> bool {
    (one <= b) != (other <= b)
}

// The later place of the first two neighbours that a step of rewriting exchanges, by one of two pairs of factors: acb and cab with a ≤ b < c; bac and
// bca with a < b ≤ c, the same for the letter before b.
fn rewritten_at(letters: &[u8]) -> Option<usize> {
    for (start, factor) in letters.windows(3).enumerate() {
        if let [first, second, third] = factor {
            if parts(*third, *first, *second) {
                return Some(start + 1);
            }
            if parts(first.wrapping_sub(1), *second, *third) {
                return Some(start + 2);
            }
        }
    }
    None
}

// Makes a move that changes the first letter, or one like it: raising for an odd number, else lowering. Where it is refused, the word stays.
fn change(k: usize, word: &mut Word) {
    let first = word.letters().first().copied().unwrap_or(0);
    let _ = match k % 2 {
        1 => plain_move(Side::Raising, usize::from(first).wrapping_sub(1), word),
        _ => plain_move(Side::Lowering, usize::from(first), word),
    };
}

// Puts the letter above the word's rank at the end, and the rank goes up to have it; where there is no such letter, or no room, the word stays.
fn lift(word: &mut Word) {
    if word.rank < 64 && word.length < 1024 {
        word.rank += 1;
        word.push(word.rank as u8);
    }
}

// The second word of the pair whose first word, of this number, is given, by the generator as it was left after that word. Words are drawn in five ways too, by
// the number's remainder: each of these ways meets each of those, and with each both ranks.
pub(crate) fn second_word(k: usize, word: &Word, generator: Generator) -> Word {
    let mut other = *word;
    match PARTNERS[k / 5 % 6] {
        Partner::Drawn => {
            let mut generator = generator;
            return word_of(k.wrapping_add(64), &mut generator);
        }
        Partner::Exchanged => exchange(generator.below(word.letters().len() + 1), &mut other),
        Partner::Rewritten => {
            if let Some(place) = rewritten_at(word.letters()) {
                exchange(place, &mut other);
            }
        }
        Partner::Same => {}
        Partner::Moved => change(k, &mut other),
        Partner::Above => lift(&mut other),
    }
    if k / 30 % 2 == 1 {
        other.rank = 64;
    }
    other
}
