// How often a letter stands in a word, and how many letters are at most one. Each public function takes whatever slice it is given.
ghost use Rattle.std.specs.Prelude.{◌≤◌, ◌≡◌, length};
ghost use Rattle.hypoplactic.specs.Words.{count, count_up_to};
ghost use Rattle.multiplicities.specs.Tallies.{Tallies};

// How many of at most 1,024 letters pass a test. Their count fits 16 bits, and the narrower it is, the more letters the compiled code counts at once.
fn count_few<F: Fn(u8) -> bool>(letters: &[u8], test: &F) -> usize
    requires few { length letters.now ≤ 1024 }
    requires callable { F.IsAlwaysCallable test.now }
    ensures { Tallies (F.post test.now) letters.now result }
{
    let mut found: u16 = 0;
    for x in letters {
        found += u16::from(test(*x));
    }
    usize::from(found)
}

// How many of any number of letters pass a test: the sum over parts of at most 1,024.
fn count_passing<F: Fn(u8) -> bool>(letters: &[u8], test: &F) -> usize
    requires { F.IsAlwaysCallable test.now }
    ensures { Tallies (F.post test.now) letters.now result }
{
    let mut found = 0;
    for part in letters.chunks(1024) {
        found += count_few(part, test);
    }
    found
}

// How often `letter` stands among any number of letters, or a mark among marks.
pub fn count_letters(letter: u8, letters: &[u8]) -> usize
    ensures { result ≡ count letter letters.now }
{
    count_passing(letters, &|x| x == letter)
}

// How many of any number of letters are at most `letter`. Among letters that rise it is the place after the last of these.
pub fn count_up_to(letter: u8, letters: &[u8]) -> usize
    ensures { result ≡ count_up_to letter letters.now }
{
    count_passing(letters, &|x| x <= letter)
}
