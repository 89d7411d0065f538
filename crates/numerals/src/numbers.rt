// Numbers of a line, read at a place of the text. What is left at a place is the text without the bytes before it.
ghost use Rattle.std.specs.Prelude.{Ok, ◌<◌, ◌≤◌, ◌≡◌, drop, length};
ghost use Rattle.grammar.specs.Reading.{further_digits, more_digits, read_field, read_number};
ghost use Rattle.numerals.specs.Bytes.{digit_of, starts_with};
ghost use Rattle.numerals.specs.Numbers.{Numbered};

// The place of the byte that breaks the grammar.
#[derive(Clone, Copy, Debug, PartialEq, Eq)]
pub struct Broken {
    pub place: usize,
}

// A number, and the place after it.
#[derive(Clone, Copy, Debug, PartialEq, Eq)]
pub struct Number {
    pub value: u16,
    pub next: usize,
}

// Whether a byte stands at a place.
pub fn stands(text: &[u8], at: usize, byte: u8) -> bool
    ensures { result ≡ starts_with byte (drop at text.now) }
{
    text.get(at) == Some(&byte)
}

// The digit at a place.
// Kept: what is left of byte - 48 by 2^16 is subtracted once and tested once. By `is_ascii_digit` the items of 1,024 cells cost 46,093 instructions, so 40,971.
fn digit_at(text: &[u8], at: usize) -> Option<u16>
    ensures { result ≡ digit_of (drop at text.now) }
{
    let digit = u16::from(*text.get(at)?).wrapping_sub(48);
    if digit <= 9 { Some(digit) } else { None }
}

// The digits after the first, of which there are at most three.
fn further_digits(text: &[u8], from: usize, first: u16) -> Number
    requires { (from ≤ length text.now) × (first < 10) }
    ensures { Numbered text.now (more_digits further_digits first (drop from text.now)) (Ok result) }
{
    let mut value = first;
    let mut next = from;
    for _ in 0..3_usize {
        let Some(digit) = digit_at(text, next) else {
            return Number { value, next };
        };
        value = value * 10 + digit;
        next += 1;
    }
    Number { value, next }
}

// A number: one to four digits, and after a leading 0 nothing more.
fn number_at(text: &[u8], at: usize) -> Result<Number, Broken>
    requires { at ≤ length text.now }
    ensures { Numbered text.now (read_number (drop at text.now)) result }
{
    match text.get(at) {
        Some(b'0') => Ok(Number {
            value: 0,
            next: at + 1,
        }),
        Some(first @ b'1'..=b'9') => Ok(further_digits(text, at + 1, u16::from(*first - b'0'))),
        _ => Err(Broken { place: at }),
    }
}

// A comma and a number. Past the end of the text nothing is left, and the grammar breaks at its end.
pub fn field_at(text: &[u8], at: usize) -> Result<Number, Broken>
    ensures { Numbered text.now (read_field (drop at text.now)) result }
{
    if stands(text, at, b',') {
        return number_at(text, at + 1);
    }
    Err(Broken {
        place: at.min(text.len()),
    })
}
