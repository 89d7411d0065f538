// Words drawn by a repeatable generator, over all ranks from 1 to 64, all lengths up to 1,024 and in five ways, and streams of letters, drawn one after the other.
ghost use Rattle.std.specs.Prelude.{◌≡◌, ◌-◌, ◌%◌, ◌<◌, ◌≤◌};
ghost use Rattle.plain_words.specs.declared.drawn.TheConstants.{PRIME};

use crate::Word;

// How many words are drawn.
pub(crate) const DRAWN: usize = 2752;

// The generator multiplies modulo this prime.
const PRIME: u64 = 2147483647;

// A repeatable generator of numbers.
#[derive(Clone, Copy, Debug)]
pub struct Generator {
    state: u64,
    ghost reduced: { state < PRIME },
}

impl Generator {
    // A generator that begins with a number.
    pub fn new(number: u64) -> Generator
        ensures { result.state ≡ number % 2147483647 }
    {
        Generator {
            state: number % PRIME,
        }
    }

    // On to the next number.
    fn step(&mut self) {
        self.state = self.state * 48271 % PRIME;
    }

    // A number below a bound, of which the same comes until the next step; 0 where there is none.
    pub fn below(&self, bound: usize) -> usize
        ensures { result ≤ bound - 1 }
    {
        below(bound, self.state)
    }
}

// A number below a bound, by one that may be above it; 0 where there is none.
pub fn below(bound: usize, number: u64) -> usize
    ensures { result ≤ bound - 1 }
{
    (number as usize).checked_rem(bound).unwrap_or(0)
}

// How the letters of a word or a stream come, each after the one before it.
#[derive(Clone, Copy, Debug, PartialEq, Eq)]
pub enum Way {
    AnyLetter,
    OneOfThree,
    NeverFalling,
    NeverRising,
    // from the bottom to the top again
    Falling,
}

// All ways.
pub const WAYS: [Way; 5] = [
    Way::AnyLetter,
    Way::OneOfThree,
    Way::NeverFalling,
    Way::NeverRising,
    Way::Falling,
];

// The length of a word: for each rank 0 and 1, then 2,112 short words and 320 of up to 64 letters, then for each rank 1,023, 1,024 and one length from 65 on.
fn length_of(k: usize, generator: &Generator) -> usize
    ensures { result ≤ 1024 }
{
    match k {
        0..128 => k / 64,
        128..2240 => 2 + generator.below(9),
        2240..2560 => generator.below(65),
        _ if k % 3 == 0 => 65 + generator.below(960),
        _ => 1022 + k % 3,
    }
}

// A stream of letters: its rank and its way, the last letter that was drawn, and the generator.
#[derive(Clone, Copy, Debug)]
pub struct Stream {
    pub rank: usize,
    pub way: Way,
    letter: usize,
    generator: Generator,
}

impl Stream {
    // A stream before its first letter.
    fn new(rank: usize, way: Way, mut generator: Generator) -> Stream
        ensures { (result.rank ≡ rank) × (result.way ≡ way) }
    {
        generator.step();
        Stream {
            rank,
            way,
            letter: if way == Way::NeverFalling { 1 } else { rank },
            generator,
        }
    }

    // The stream of a rank, by a generator that begins with a number of its own.
    pub fn drawn(rank: usize, way: Way) -> Stream
        ensures { (result.rank ≡ rank) × (result.way ≡ way) }
    {
        Stream::new(rank, way, Generator::new((rank % 65) as u64 + 20201))
    }

    // A letter as it comes after the last one.
    fn letter_after(&self) -> usize {
        let third = self.generator.below(3);
        match self.way {
            Way::AnyLetter => 1 + self.generator.below(self.rank),
            Way::OneOfThree => [1, self.rank / 2 + self.rank % 2, self.rank][third],
            Way::NeverFalling => self.rank.min(self.letter.saturating_add(third)),
            Way::NeverRising => self.letter.saturating_sub(third).max(1),
            Way::Falling => self
                .letter
                .checked_sub(third + 1)
                .filter(|a| 0 < *a)
                .unwrap_or(self.rank),
        }
    }

    // The next letter.
    pub fn next_letter(&mut self) -> u8
        ensures { (result ≤ 64) × (self.new.rank ≡ self.old.rank) × (self.new.way ≡ self.old.way) }
    {
        self.letter = self.letter_after() % 65;
        self.generator.step();
        self.letter as u8
    }
}

// A drawn word: its rank and its way by its number, its length and its letters by the generator.
pub(crate) fn drawn_word(k: usize, generator: &mut Generator) -> Word
    ensures { result.length ≤ 1024 }
{
    let rank = k % 64 + 1;
    let length = length_of(k, generator);
    let mut stream = Stream::new(rank, WAYS[k % 5], *generator);
    let mut word = Word::new(rank, &[]);
    for _ in 0..length {
        word.push(stream.next_letter());
    }
    *generator = stream.generator;
    word
}
