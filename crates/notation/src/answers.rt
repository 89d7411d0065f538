// Answers, printed: `gives` and the values, or `refused`, number and place.
use refusals::answers::{Cell, Junctions, Sizes};
use refusals::refusal::{Refusal, Returned};
use std::cmp::Ordering;
use std::{fmt, io};

// What a call gives: its values, each after a space.
pub trait Values {
    fn write<W: fmt::Write>(&self, f: &mut fmt::Formatter<W>) -> fmt::Result;
}

// A check that passes gives no value.
impl Values for () {
    fn write<W: fmt::Write>(&self, _f: &mut fmt::Formatter<W>) -> fmt::Result {
        Ok(())
    }
}

// The changed place, how often, the elements written, or the new used count.
impl Values for usize {
    fn write<W: fmt::Write>(&self, f: &mut fmt::Formatter<W>) -> fmt::Result {
        write!(f, " {self}")
    }
}

// The size of a class, or the number of a word in it.
impl Values for u64 {
    fn write<W: fmt::Write>(&self, f: &mut fmt::Formatter<W>) -> fmt::Result {
        write!(f, " {self}")
    }
}

// The junction set, then the rows.
impl Values for Junctions {
    fn write<W: fmt::Write>(&self, f: &mut fmt::Formatter<W>) -> fmt::Result {
        write!(f, " {} {}", self.set, self.rows)
    }
}

// Rank and number of letters or cells of a line that is read.
impl Values for Sizes {
    fn write<W: fmt::Write>(&self, f: &mut fmt::Formatter<W>) -> fmt::Result {
        write!(f, " {} {}", self.rank, self.count)
    }
}

// Letter, row and column; no value where there is no such cell.
impl Values for Option<Cell> {
    fn write<W: fmt::Write>(&self, f: &mut fmt::Formatter<W>) -> fmt::Result {
        match self {
            Some(cell) => write!(f, " {} {} {}", cell.letter, cell.row, cell.column),
            None => Ok(()),
        }
    }
}

// 1 for two words or tableaux of one class, 0 for others.
impl Values for bool {
    fn write<W: fmt::Write>(&self, f: &mut fmt::Formatter<W>) -> fmt::Result {
        write!(f, " {}", u8::from(*self))
    }
}

// 0 for equal weights, 1 lower, 2 higher, 3 neither.
impl Values for Option<Ordering> {
    fn write<W: fmt::Write>(&self, f: &mut fmt::Formatter<W>) -> fmt::Result {
        let number = match self {
            Some(Ordering::Equal) => 0,
            Some(Ordering::Less) => 1,
            Some(Ordering::Greater) => 2,
            None => 3,
        };
        write!(f, " {number}")
    }
}

// An answer, to be printed.
#[derive(Drop)]
struct Answer<T>(Result<T, Refusal>);

impl<T: Values> fmt::Display for Answer<T> {
    fn fmt<W: fmt::Write>(&self, f: &mut fmt::Formatter<W>) -> fmt::Result {
        match &self.0 {
            Ok(values) => {
                write!(f, "gives")?;
                values.write(f)
            }
            Err(refusal) => {
                let Returned { number, place } = Returned::from(*refusal);
                write!(f, "refused {number} {place}")
            }
        }
    }
}

// Prints an answer.
pub fn print_answer<T: Values + Drop>(
    rt: &impl Print,
    answer: Result<T, Refusal>,
) -> io::Result<()> {
    rt.print(Answer(answer))
}
