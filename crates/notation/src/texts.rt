// Parts of a text, and numbers. Nothing here refuses: what is no digit counts as none. The expected output shows where a table line is not what it should be.
ghost use Rattle.std.specs.Prelude.{◌≡◌, ◌<◌, ◌≤◌, length};
ghost use Rattle.notation.specs.Digits.{digits_from};

// A text up to the first of a mark, and what is after the mark: the whole text, and nothing, where there is none.
pub fn cut(text: &[u8], mark: u8) -> (&[u8], &[u8])
    ensures before { length result.0.now ≤ length text.now }
    ensures after { length result.1.now ≤ length text.now }
    ensures less { 0 < length text.now → length result.1.now < length text.now }
{
    match text.iter().position(|byte| *byte == mark) {
        Some(at) => (&text[..at], &text[at + 1..]),
        None => (text, &[]),
    }
}

// A text up to its first byte that is no digit, and from that on.
pub(crate) fn digits(text: &[u8]) -> (&[u8], &[u8])
    ensures { length result.1.now ≤ length text.now }
{
    let end = text.iter().position(|byte| !byte.is_ascii_digit());
    text.split_at(end.unwrap_or(text.len()))
}

// The number whose digits a text begins with, up to the largest of 64 bits.
#[tactic(auto, using(crate::specs::Digits::reading))]
pub(crate) fn number(text: &[u8]) -> usize
    ensures { result ≡ digits_from 0 text.now }
{
    let mut value = 0usize;
    for byte in text {
        if *byte < b'0' || b'9' < *byte {
            return value;
        }
        // One more than the largest number that fits ten times.
        value = (value % 1844674407370955162 * 10).wrapping_add(usize::from(*byte - b'0'));
    }
    value
}
