// The reader of W lines: the word of a line into lent letters.
ghost use Rattle.std.specs.Prelude.{[], ◌∷◌, ◌≡◌, length};
ghost use Rattle.outcomes.specs.Judgements.{room_judged, word_judgements};
ghost use Rattle.outcomes.specs.LineReadings.{read_w_run, word_read};
ghost use Rattle.refusals.specs.Running.{checks_then};
ghost use Rattle.refusals.specs.Said.{said_sizes, said_verdict};

use acceptance::word::check_word;
use buffers::copies::copy;
use line_items::letters::narrow_letters;
use line_items::room::no_letters;
use refusals::answers::Sizes;
use refusals::chains::check_limits;
use refusals::numbers::check_room;
use refusals::refusal::Refusal;
use scans::line::{Head, scan_line};

// 1, 2 and 4 of a word that was read, and 13 of lent letters.
fn check_word_read(rank: usize, word: &[u8], room: usize) -> Result<(), Refusal>
    ensures { said_verdict result
        ≡ checks_then (word_judgements rank word.now) (room_judged (length word.now) room ∷ []) }
{
    check_word(rank, word)?;
    check_room(word.len(), room)
}

// A word that was read, into lent letters.
fn store_word(rank: usize, word: &[u8], letters: &mut [u8]) -> Result<Sizes, Refusal>
    ensures { (said_sizes result, letters.new) ≡ word_read letters.old rank word.now }
{
    check_word_read(rank, word, letters.len())?;
    copy(word, letters);
    Ok(Sizes {
        rank,
        count: word.len(),
    })
}

// The word of a W line into lent letters, or the refusal of 14, 1, 2, 4 or 13, which leaves them as they were.
pub fn read_word_line(text: &[u8], letters: &mut [u8]) -> Result<Sizes, Refusal>
    ensures { (said_sizes result, letters.new) ≡ read_w_run text.now letters.old }
{
    let mut values = no_letters();
    // A W line tells no marks, so none are lent.
    let mut marks = [0u8; 0];
    match scan_line(text, b'W', true, false, &mut values, &mut marks) {
        Err(broken) => Err(Refusal::Line(broken.place)),
        Ok(Head { rank, count, .. }) => {
            check_limits(rank, count)?;
            let bytes = narrow_letters(&values[..count]);
            store_word(rank, &bytes[..count], letters)
        }
    }
}
