// A window that follows a stream: letters arrive one after the other, the oldest leaving first where the window is full, until none is left to come; then they
// leave, one after the other, until the window is empty. Its state after a call is held to plain insertion of the letters that are then in it: of a small
// window after each call, of a larger one after some.
ghost use Rattle.std.specs.Prelude.{◌≡◌, ◌-◌, ◌≤◌};

use crate::comparing::{Comparison, Fault};
use crate::kernel::Memory;
use plain_words::Word;
use plain_words::drawn::{Stream, Way};
use plain_words::insertion::plain_pair;

// How many letters of a stream come.
const LETTERS: usize = 3000;

// How many letters a window holds.
const SIZES: [usize; 5] = [1, 2, 7, 64, 1024];

// The letters in a window of a size, and its pair in the kernel.
#[derive(Drop)]
struct Window {
    size: usize,
    word: Word,
    memory: Memory,
    ghost within: { word.length ≤ 1024 },
}

impl Window {
    // The empty window.
    fn new(size: usize, rank: usize) -> Window {
        Window {
            size,
            word: Word::new(rank, &[]),
            memory: Memory::new(rank),
        }
    }

    // The oldest letter leaves, where there is one.
    fn leave(&mut self)
        ensures { self.new.word.length ≡ self.old.word.length - 1 }
    {
        if 0 < self.word.length {
            self.word.letters.copy_within(1.., 0);
            self.word.length -= 1;
            self.memory.depart();
        }
    }

    // A letter arrives, after the oldest has left where the window is full.
    fn arrive(&mut self, letter: u8) {
        if self.size <= self.word.length || self.word.length == 1024 {
            self.leave();
        }
        self.word.push(letter);
        self.memory.arrive(letter);
    }

    // The state after so many calls, compared where it is its turn.
    fn compare(&self, windows: &mut Comparison, calls: usize) {
        if calls % (self.size / 64 + 1) == 0 {
            windows.compare(&Ok(plain_pair(&self.word)), &self.memory.pair());
            windows.count_one();
        }
    }
}

// A window of a size along a stream of a rank, until it is empty.
fn follow(windows: &mut Comparison, size: usize, rank: usize, way: Way) {
    let mut stream = Stream::drawn(rank, way);
    let mut window = Window::new(size, rank);
    for calls in 0..LETTERS {
        window.arrive(stream.next_letter());
        window.compare(windows, calls + 1);
    }
    for left in 0..size {
        window.leave();
        window.compare(windows, (LETTERS + 1).wrapping_add(left));
    }
}

// All streams: each of five sizes with each of five ways in which letters are drawn, at ranks from 1 to 64, small ones more often.
pub(crate) fn compare_windows(windows: &mut Comparison) {
    for (i, size) in SIZES.iter().enumerate() {
        follow(windows, *size, 4, Way::AnyLetter);
        follow(windows, *size, 64, Way::OneOfThree);
        follow(windows, *size, 16, Way::NeverFalling);
        follow(windows, *size, 64, Way::NeverRising);
        follow(windows, *size, i + 1, Way::Falling);
    }
}

// Six states are spoilt, of a window through which 4323 has passed and of which the oldest has left: replies, used count, letters, marks, counts and entries.
pub(crate) fn spoil_windows(windows: &mut Comparison, word: &Word) {
    let mut window = Window::new(1024, word.rank);
    for letter in word.letters() {
        window.arrive(*letter);
    }
    window.leave();
    let own = || plain_pair(&window.word);
    let told = window.memory.pair();
    windows.spoil(Ok(own()), &told, |state| *state = Err(Fault::Replies(1)));
    let Ok(pair) = told else {
        return;
    };
    windows.spoil(own(), &pair, |pair| {
        pair.lengthen();
    });
    windows.spoil(own(), &pair, |pair| pair.tableau.letters[0] = 200);
    windows.spoil(own(), &pair, |pair| pair.tableau.marks[0] = 200);
    windows.spoil(own(), &pair, |pair| pair.tableau.counts[0] = 5000);
    windows.spoil(own(), &pair, |pair| pair.entries[0] = 5000);
}
