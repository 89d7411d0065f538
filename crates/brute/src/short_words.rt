// All words of at most 6 letters over 1 to 3.
use plain_words::Word;

// How many words of at most 6 letters over 1 to 3 there are.
pub(crate) const SHORT: usize = 1093;

// A short word by its number, whose digits to the base 3 it has, the highest first, each from 1 to 3: shorter words come first, and words of one length in
// dictionary order. The digits are found from the lowest up.
pub(crate) fn short_word(number: usize) -> Word {
    let mut word = Word::new(3, &[]);
    let mut rest = number;
    for _ in 0..6usize {
        if rest == 0 {
            break;
        }
        word.push(((rest - 1) % 3) as u8 + 1);
        rest = (rest - 1) / 3;
    }
    let length = word.letters().len();
    word.letters[..length].reverse();
    word
}
