// The fields of a table line, one after the other, as the arguments of a call.
ghost use Rattle.std.specs.Prelude.{◌≡◌, ◌<◌, ◌≤◌, length};
ghost use Rattle.arrayvec.specs.ArrayVec.{array_vec_len};
ghost use Rattle.notation.specs.Digits.{digits_from};

use crate::items::{elements, elements_into, text_bytes, text_bytes_into};
use crate::texts::{cut, number};
use arrayvec::ArrayVec;

// An element of a list of bytes, modulo 256.
fn low_byte(element: u16) -> u8 {
    (element % 256) as u8
}

// What is left of a line.
#[derive(Clone, Copy, Debug)]
pub struct Arguments<'a> {
    pub rest: &'a [u8],
}

impl<'a> Arguments<'a> {
    // All fields of a line.
    pub fn new(line: &'a [u8]) -> Arguments<'a>
        ensures { result.rest.now ≡ line.now }
    {
        Arguments { rest: line }
    }

    // The next field, cut off; an empty one past the last.
    fn cut_field(&mut self) -> &'a [u8]
        ensures within { length result.now ≤ length self.old.rest.now }
        ensures taken { 0 < length self.old.rest.now → length self.new.rest.now < length self.old.rest.now }
    {
        let (field, rest) = cut(self.rest, b' ');
        self.rest = rest;
        field
    }

    // The next field, as it stands in the line.
    pub fn field(&mut self) -> &'a [u8]
        ensures { length result.now ≤ length self.old.rest.now }
    {
        self.cut_field()
    }

    // A number.
    pub fn number(&mut self) -> usize
        ensures { result ≡ digits_from 0 self.old.rest.now }
    {
        let value = number(self.rest);
        self.field();
        value
    }

    // A list of bytes. Of this list, as of the text and the list of 16-bit elements, what is beyond the room or beyond `N` is dropped.
    // Kept: three kinds of field, here and below, of a fixed capacity and in lent memory: each is one call, and a trait over the kinds would be longer.
    pub fn bytes<const N: usize>(&mut self, room: usize) -> ArrayVec<u8, N>
        ensures { array_vec_len result ≤ room }
    {
        elements(self.field(), room, low_byte)
    }

    // A list of bytes, of any length that the lent memory has room for: the list stands at its front, and what is beyond its end is dropped.
    pub fn bytes_into<'b>(&mut self, memory: &'b mut [u8]) -> &'b mut [u8]
        ensures within { length result.now ≤ length memory.old }
        ensures taken { 0 < length self.old.rest.now → length self.new.rest.now < length self.old.rest.now }
    {
        elements_into(self.cut_field(), low_byte, memory)
    }

    // A text.
    pub fn text<const N: usize>(&mut self, room: usize) -> ArrayVec<u8, N>
        ensures { array_vec_len result ≤ room }
    {
        text_bytes(self.field(), room)
    }

    // A text in lent memory, likewise.
    pub fn text_into<'b>(&mut self, memory: &'b mut [u8]) -> &'b mut [u8]
        ensures within { length result.now ≤ length memory.old }
        ensures taken { 0 < length self.old.rest.now → length self.new.rest.now < length self.old.rest.now }
    {
        text_bytes_into(self.cut_field(), memory)
    }

    // A list of 16-bit elements.
    pub fn entries<const N: usize>(&mut self, room: usize) -> ArrayVec<u16, N>
        ensures { array_vec_len result ≤ room }
    {
        elements(self.field(), room, |element| element)
    }

    // A list of 16-bit elements in lent memory, likewise.
    pub fn entries_into<'b>(&mut self, memory: &'b mut [u16]) -> &'b mut [u16]
        ensures within { length result.now ≤ length memory.old }
        ensures taken { 0 < length self.old.rest.now → length self.new.rest.now < length self.old.rest.now }
    {
        elements_into(self.cut_field(), |element| element, memory)
    }

    // Letter counts: numbers that are missing are 0.
    pub fn counts(&mut self) -> [u16; 64]
        ensures { length result ≡ 64 }
    {
        let mut counts = [0; 64];
        self.entries_into(&mut counts);
        counts
    }
}

#[cfg(test)]
mod tests {
    use super::*;

    // More elements than any list of the table has; what lies behind them in the memory is left.
    #[test]
    fn lists_of_any_length_stand_in_lent_memory(rt: HostRuntime) {
        let mut call = Arguments::new(b"1*3000,263-265 (ab)*2c$ 65535*2000,3-4 end");
        let mut bytes = [77u8; 4000];
        let mut text = [77u8; 8];
        let mut entries = [77u16; 4000];
        assert_eq!(rt; call.bytes_into(&mut bytes).len(), 3003);
        assert_eq!(rt; call.text_into(&mut text).len(), 6);
        assert_eq!(rt; call.entries_into(&mut entries).len(), 2002);
        assert_eq!(rt; call.field(), b"end".as_slice());
        assert_eq!(rt; bytes.first(), Some(&1));
        assert_eq!(rt; bytes.get(2999..3004), Some([1, 7, 8, 9, 77].as_slice()));
        assert_eq!(rt; text.as_slice(), b"ababc\nMM".as_slice());
        assert_eq!(rt; entries.get(1999..2003), Some([65535, 3, 4, 77].as_slice()));
    }

    // What is beyond the end of the memory is dropped, and the field is taken whole.
    #[test]
    fn lists_end_with_the_memory(rt: HostRuntime) {
        let mut call = Arguments::new(b"1-9 abc 1-9 end");
        assert_eq!(rt; &*call.bytes_into(&mut [0; 2]), [1, 2].as_slice());
        assert_eq!(rt; &*call.text_into(&mut [0; 2]), b"ab".as_slice());
        assert_eq!(rt; &*call.entries_into(&mut [0; 2]), [1, 2].as_slice());
        assert_eq!(rt; call.field(), b"end".as_slice());
    }
}
