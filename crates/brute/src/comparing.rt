// What is compared and counted, and answers that are spoilt on purpose.
ghost use Rattle.std.specs.Prelude.{◌≡◌};

use refusals::refusal::Refusal;
use std::fmt;

// Why what the kernel answers cannot be compared: it refuses, tells a count for which there is no room, or wrote more than it tells; or so many replies were
// wrong before.
#[derive(Clone, Copy, Debug, PartialEq, Eq)]
pub(crate) enum Fault {
    Refused(Refusal),
    Count(usize),
    Beyond(usize),
    Replies(usize),
}

impl From<Refusal> for Fault {
    fn from(refusal: Refusal) -> Fault {
        Fault::Refused(refusal)
    }
}

// One more where a test passes.
pub(crate) fn count(number: &mut usize, test: bool) {
    *number = number.wrapping_add(usize::from(test));
}

// How many answers were compared, how many of them differed, how many were spoilt on purpose, and how many of these the comparison found.
#[derive(Clone, Copy, Debug)]
pub(crate) struct Comparison {
    pub compared: usize,
    pub differences: usize,
    pub spoilt: usize,
    pub found: usize,
}

impl Comparison {
    pub(crate) fn new() -> Comparison
        ensures { (result.compared ≡ 0) × (result.differences ≡ 0) × (result.spoilt ≡ 0) × (result.found ≡ 0) }
    {
        Comparison {
            compared: 0,
            differences: 0,
            spoilt: 0,
            found: 0,
        }
    }

    // One more of what is compared.
    pub(crate) fn count_one(&mut self) {
        count(&mut self.compared, true);
    }

    // The kernel's answer held to one's own.
    pub(crate) fn compare<T: PartialEq>(&mut self, own: &T, told: &T) {
        count(&mut self.differences, own != told);
    }

    // One spoilt answer more, which the comparison finds or not.
    pub fn find(&mut self, found: bool) {
        count(&mut self.spoilt, true);
        count(&mut self.found, found);
    }

    // One's own answer, which is the kernel's, and is no more after it is spoilt.
    pub(crate) fn spoil<T: PartialEq + Drop, S: FnOnce(&mut T)>(
        &mut self,
        mut own: T,
        told: &T,
        spoil: S,
    )
        requires { S.IsAlwaysCallable spoil }
    {
        let same = own == *told;
        spoil(&mut own);
        self.find(same && own != *told);
    }

    // Differences, and answers spoilt and found, each on a line of its own.
    pub(crate) fn write_findings<W: fmt::Write>(&self, f: &mut fmt::Formatter<W>) -> fmt::Result {
        writeln!(f, "differences {}", self.differences)?;
        writeln!(f, "spoilt {}", self.spoilt)?;
        writeln!(f, "found {}", self.found)
    }
}

impl fmt::Display for Comparison {
    fn fmt<W: fmt::Write>(&self, f: &mut fmt::Formatter<W>) -> fmt::Result {
        writeln!(f, "{}", self.compared)?;
        self.write_findings(f)
    }
}
