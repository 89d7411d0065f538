// Moves on words and on tableaux (document 01, "Moves") by plain scans of the word. Nothing here is of the kernel but the names of sides and refusals.
use operators::changes::Side;
use plain_words::Word;
use plain_words::insertion::{Tableau, plain_tableau};
use refusals::refusal::Refusal;

// Whether a letter b stands left of some a: so an a after the leftmost b.
pub(crate) fn stands_left(b: u8, a: u8, letters: &[u8]) -> bool {
    match letters.iter().position(|letter| *letter == b) {
        Some(first) => letters[first..].contains(&a),
        None => false,
    }
}

// What a move answers: the place that it changed, how often it can be made, and the word or the tableau afterwards.
#[derive(Debug, PartialEq, Eq, Drop)]
pub(crate) struct Moved<T> {
    pub place: Result<usize, Refusal>,
    pub times: Result<usize, Refusal>,
    pub after: T,
}

// A move on a word, and the place that it changes: raising turns the leftmost i+1 into i, lowering the rightmost i into i+1. It is refused where some i+1
// stands left of some i, and then the word stays.
pub(crate) fn plain_move(side: Side, index: usize, word: &mut Word) -> Result<usize, Refusal> {
    if index < 1 || word.rank <= index {
        return Err(Refusal::Index);
    }
    let low = (index % 64) as u8;
    let high = low + 1;
    let letters = word.letters();
    if stands_left(high, low, letters) {
        return Err(Refusal::Inversion);
    }
    // Kept: two scans, one from each end of the letters.
    let (place, letter) = match side {
        Side::Raising => (letters.iter().position(|letter| *letter == high), low),
        Side::Lowering => (letters.iter().rposition(|letter| *letter == low), high),
    };
    let place = place.ok_or(Refusal::NoLetter)?;
    word.letters[place] = letter;
    Ok(place)
}

// How often a move can be made, one after the other, by making it until it is refused; where the index is none, that refusal.
fn plain_times(side: Side, index: usize, word: &Word) -> Result<usize, Refusal> {
    let mut now = *word;
    for times in 0..2048 {
        match plain_move(side, index, &mut now) {
            Ok(_) => {}
            Err(Refusal::Index) => return Err(Refusal::Index),
            Err(_) => return Ok(times),
        }
    }
    Ok(2048)
}

// The whole answer to a move on a word.
pub(crate) fn move_on_word(side: Side, index: usize, word: &Word) -> Moved<Word> {
    let mut after = *word;
    Moved {
        place: plain_move(side, index, &mut after),
        times: plain_times(side, index, word),
        after,
    }
}

// The answer to a move on a tableau, by that on its word: the tableau afterwards is that of the moved word, and the cell that changed is where it differs.
pub(crate) fn move_on_tableau(moved: &Moved<Word>, before: &Tableau) -> Moved<Tableau> {
    let after = plain_tableau(&moved.after);
    let mut cells = before.letters().iter().zip(after.letters());
    let changed = cells.position(|(one, other)| one != other);
    let place = match moved.place {
        Ok(_) => Ok(changed.unwrap_or(0)),
        Err(refusal) => Err(refusal),
    };
    Moved {
        place,
        times: moved.times,
        after,
    }
}
