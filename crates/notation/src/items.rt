// Lists and texts of the table. An item of a list is a number, `v*k` for k times v, or `a-b` for the numbers from a to b. A text has `$` for the line feed,
// and may hold groups, `(t)*k` for k times t. `-` is the empty list and the empty text. Elements beyond the room are dropped, and those beyond the capacity
// of the list, or the end of the memory, that they are put into.
ghost use Rattle.std.specs.Prelude.{◌≤◌, length};
ghost use Rattle.arrayvec.specs.ArrayVec.{array_vec_len};

use crate::sinks::{Front, Sink};
use crate::texts::{cut, digits, number};
use arrayvec::ArrayVec;

// An item: so many elements, the first of them, and whether each is one above the one before.
struct Item {
    times: usize,
    first: usize,
    rising: bool,
}

impl From<&[u8]> for Item {
    fn from(item: &[u8]) -> Item {
        let first = number(item);
        let (of_first, rest) = digits(item);
        let times = match rest {
            [] => 1,
            _ if of_first.is_empty() => 0,
            [b'*', times @ ..] => number(times),
            [_, last @ ..] => number(last).wrapping_add(1).wrapping_sub(first),
        };
        Item {
            times,
            first,
            rising: !item.contains(&b'*'),
        }
    }
}

// Puts the elements of a list, each as it is to be kept.
// Kept: that `kept` may be called is asked here and below, since each function hands it on.
fn put_elements<T: Copy, S: Sink<T>, F: Fn(u16) -> T>(
    list: &[u8],
    room: usize,
    kept: F,
    all: &mut S,
)
    requires callable { F.IsAlwaysCallable kept }
    requires room { S.count all.old ≤ room }
    ensures { S.count all.new ≤ room }
{
    let mut rest = list;
    // Kept: a turn cuts off an item, which is all that the loop goes by.
    while !rest.is_empty() {
        let (item, after) = cut(rest, b',');
        let Item {
            times,
            first,
            rising,
        } = Item::from(item);
        for k in 0..times {
            let element = if rising { first.wrapping_add(k) } else { first };
            match u16::try_from(element) {
                Ok(element) if all.count() < room && all.put(kept(element)) => {}
                _ => return,
            }
        }
        rest = after;
    }
}

// The elements of a list.
pub(crate) fn elements<T: Copy + Default, const N: usize, F: Fn(u16) -> T>(
    list: &[u8],
    room: usize,
    kept: F,
) -> ArrayVec<T, N>
    requires { F.IsAlwaysCallable kept }
    ensures { array_vec_len result ≤ room }
{
    let mut all = ArrayVec::new();
    put_elements(list, room, kept, &mut all);
    all
}

// The same in lent memory.
pub(crate) fn elements_into<'b, T: Copy, F: Fn(u16) -> T>(
    list: &[u8],
    kept: F,
    memory: &'b mut [T],
) -> &'b mut [T]
    requires { F.IsAlwaysCallable kept }
    ensures { length result.now ≤ length memory.old }
{
    let room = memory.len();
    let mut all = Front::new(memory);
    put_elements(list, room, kept, &mut all);
    all.elements()
}

// What a byte of a text stands for; none for the dash.
fn meant(byte: u8) -> Option<u8> {
    match byte {
        b'$' => Some(b'\n'),
        b'-' => None,
        _ => Some(byte),
    }
}

// The byte of a text at a place, if it has one. A dash within a group is as if it were the byte so far on behind the group.
fn byte_at(text: &[u8], place: usize) -> Option<u8> {
    let mut left = place;
    let mut rest = text;
    // Kept: a turn cuts off a part and the group after it.
    while !rest.is_empty() {
        let (plain, group) = cut(rest, b'(');
        if let Some(byte) = plain.get(left) {
            return meant(*byte);
        }
        left = left.saturating_sub(plain.len());
        let (part, after) = cut(group, b')');
        let after = after.get(1..).unwrap_or(&[]);
        let all = part.len().saturating_mul(number(after));
        if left < all {
            left %= part.len();
            if let Some(byte) = meant(part[left]) {
                return Some(byte);
            }
        } else {
            left -= all;
        }
        let (_, last) = digits(after);
        rest = last;
    }
    None
}

// Puts the bytes of a text.
fn put_text<S: Sink<u8>>(text: &[u8], room: usize, all: &mut S)
    requires { S.count all.old ≤ 0 }
    ensures { S.count all.new ≤ room }
{
    for place in 0..room {
        match byte_at(text, place) {
            Some(byte) if all.put(byte) => {}
            _ => break,
        }
    }
}

// The bytes of a text.
pub(crate) fn text_bytes<const N: usize>(text: &[u8], room: usize) -> ArrayVec<u8, N>
    ensures { array_vec_len result ≤ room }
{
    let mut all = ArrayVec::new();
    put_text(text, room, &mut all);
    all
}

// The same in lent memory.
pub(crate) fn text_bytes_into<'b>(text: &[u8], memory: &'b mut [u8]) -> &'b mut [u8]
    ensures { length result.now ≤ length memory.old }
{
    let room = memory.len();
    let mut all = Front::new(memory);
    put_text(text, room, &mut all);
    all.elements()
}
