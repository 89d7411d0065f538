// Lists, printed in the table's notation, after a mark between spaces. A list of more than 16 elements that are not all equal is printed by its first eight,
// its length and a checksum, the sum of place times element mod 65,536, places from 1; a text of more than 64 bytes by its first 32, its length and its
// checksum. Letter counts are printed up to the last that is not 0, and where all are equal as one and how often.
use std::{fmt, io};

// The sum of place times element.
fn checksum<T: Copy + Into<u16>>(list: &[T]) -> u16 {
    let mut sum = 0u16;
    let mut place = 0u16;
    for element in list {
        place = place.wrapping_add(1);
        sum = sum.wrapping_add(place.wrapping_mul((*element).into()));
    }
    sum
}

// Elements with commas between them.
fn write_elements<T: Copy + Into<u16>, W: fmt::Write>(
    list: &[T],
    f: &mut fmt::Formatter<W>,
) -> fmt::Result {
    for (i, element) in list.iter().enumerate() {
        if 0 < i {
            write!(f, ",")?;
        }
        let element: u16 = (*element).into();
        write!(f, "{element}")?;
    }
    Ok(())
}

// A list, to be printed.
#[derive(Drop)]
struct List<'a, T>(&'a [T]);

impl<'a, T: Copy + PartialEq + Into<u16>> fmt::Display for List<'a, T> {
    fn fmt<W: fmt::Write>(&self, f: &mut fmt::Formatter<W>) -> fmt::Result {
        let list = self.0;
        let count = list.len();
        let Some(first) = list.first() else {
            return write!(f, "-");
        };
        if count <= 16 {
            return write_elements(list, f);
        }
        if list.iter().all(|element| element == first) {
            write_elements(&list[..1], f)?;
            return write!(f, "*{count}");
        }
        let sum = checksum(list);
        write_elements(&list[..8], f)?;
        write!(f, "..{count}:{sum}")
    }
}

// Letter counts, to be printed.
#[derive(Drop)]
struct Counts<'a>(&'a [u16; 64]);

impl<'a> fmt::Display for Counts<'a> {
    fn fmt<W: fmt::Write>(&self, f: &mut fmt::Formatter<W>) -> fmt::Result {
        let counts = self.0;
        if counts.iter().all(|count| *count == counts[0]) {
            let list = List(counts.as_slice());
            return write!(f, "{list}");
        }
        let last = counts.iter().rposition(|count| *count != 0);
        write_elements(&counts[..last.map_or(0, |last| last + 1)], f)
    }
}

// A lent list after the call.
pub fn print_list<T: Copy + PartialEq + Into<u16>>(rt: &impl Print, list: &[T]) -> io::Result<()> {
    let list = List(list);
    print!(rt; " | {list}")
}

// Lent letter counts after the call.
pub fn print_counts(rt: &impl Print, counts: &[u16; 64]) -> io::Result<()> {
    let counts = Counts(counts);
    print!(rt; " | {counts}")
}

// Bytes of a text, `$` for the line feed.
fn print_bytes(rt: &impl Print, text: &[u8]) -> io::Result<()> {
    for byte in text {
        rt.write_all(&[if *byte == b'\n' { b'$' } else { *byte }])?;
    }
    Ok(())
}

// What is printed of a text.
fn shown(text: &[u8]) -> &[u8] {
    if text.len() <= 64 {
        text
    } else {
        text.split_at(32).0
    }
}

// A lent text after the call.
pub fn print_text(rt: &impl Print, text: &[u8]) -> io::Result<()> {
    print!(rt; " | ")?;
    if text.is_empty() {
        return print!(rt; "-");
    }
    let first = shown(text);
    print_bytes(rt, first)?;
    let count = text.len();
    if first.len() == count {
        return Ok(());
    }
    let sum = checksum(text);
    print!(rt; "..{count}:{sum}")
}
