// Moves, classes and weights.
use crate::comparing::{Comparison, count};
use crate::moving::{tableau_moved, word_moved};
use crate::partners::second_word;
use crate::scanning::{move_on_tableau, move_on_word};
use crate::two_words::{plain_two, tableaux_told, words_told};
use operators::changes::Side;
use plain_words::Word;
use plain_words::drawn::Generator;
use plain_words::insertion::{Tableau, plain_tableau};
use refusals::refusal::Refusal;
use std::cmp::Ordering;
use std::fmt;

// How often each answer came: to moves, made, and refused for the index, for an inversion and for no letter; to pairs of words of one class and of two, the
// same of those of two ranks; and weights equal, lower, higher and neither.
#[derive(Clone, Copy, Debug)]
pub(crate) struct Moves {
    made: usize,
    index: usize,
    inversion: usize,
    no_letter: usize,
    one_class: usize,
    two_classes: usize,
    ranks_of_one_class: usize,
    ranks_of_two_classes: usize,
    equal: usize,
    lower: usize,
    higher: usize,
    neither: usize,
    comparison: Comparison,
}

impl fmt::Display for Moves {
    fn fmt<W: fmt::Write>(&self, f: &mut fmt::Formatter<W>) -> fmt::Result {
        writeln!(f, "words moved {}", self.comparison.compared)?;
        writeln!(f, "moves made {}", self.made)?;
        writeln!(f, "moves refused with 9 {}", self.index)?;
        writeln!(f, "moves refused with 10 {}", self.inversion)?;
        writeln!(f, "moves refused with 11 {}", self.no_letter)?;
        writeln!(f, "pairs of one class {}", self.one_class)?;
        writeln!(f, "pairs of two classes {}", self.two_classes)?;
        writeln!(
            f,
            "pairs of two ranks and one class {}",
            self.ranks_of_one_class
        )?;
        writeln!(
            f,
            "pairs of two ranks and two classes {}",
            self.ranks_of_two_classes
        )?;
        writeln!(f, "weights equal {}", self.equal)?;
        writeln!(f, "weights lower {}", self.lower)?;
        writeln!(f, "weights higher {}", self.higher)?;
        writeln!(f, "weights neither {}", self.neither)?;
        self.comparison.write_findings(f)
    }
}

impl Moves {
    pub(crate) fn new() -> Moves {
        Moves {
            made: 0,
            index: 0,
            inversion: 0,
            no_letter: 0,
            one_class: 0,
            two_classes: 0,
            ranks_of_one_class: 0,
            ranks_of_two_classes: 0,
            equal: 0,
            lower: 0,
            higher: 0,
            neither: 0,
            comparison: Comparison::new(),
        }
    }

    // A move on a word and on its tableau.
    fn count_move(&mut self, side: Side, index: usize, word: &Word, tableau: &Tableau) {
        let own = move_on_word(side, index, word);
        self.comparison
            .compare(&own, &word_moved(side, index, word));
        let after = move_on_tableau(&own, tableau);
        self.comparison
            .compare(&after, &tableau_moved(side, index, tableau));
        let answers = match own.place {
            Ok(_) => &mut self.made,
            Err(Refusal::Index) => &mut self.index,
            Err(Refusal::Inversion) => &mut self.inversion,
            Err(_) => &mut self.no_letter,
        };
        count(answers, true);
    }

    // Both moves on a word at every index from 0 to the rank; for a word of more than 64 letters at every sixteenth.
    pub(crate) fn count_moves(&mut self, k: usize, word: &Word) {
        let tableau = plain_tableau(word);
        let step = if 64 < word.letters().len() { 16 } else { 1 };
        for index in (k % step..word.rank.min(64) + 1).step_by(step) {
            self.count_move(Side::Raising, index, word, &tableau);
            self.count_move(Side::Lowering, index, word, &tableau);
        }
        self.comparison.count_one();
    }

    // One word beside another. What is so of the words is so of their tableaux.
    fn count_two(&mut self, one: &Word, other: &Word) {
        let first = plain_tableau(one);
        let second = plain_tableau(other);
        let own = plain_two(&first, &second);
        self.comparison.compare(&own, &words_told(one, other));
        self.comparison
            .compare(&own, &tableaux_told(&first, &second));
        let same = own.class == Ok(true);
        let ranks = one.rank != other.rank;
        count(&mut self.one_class, same);
        count(&mut self.two_classes, !same);
        count(&mut self.ranks_of_one_class, ranks && same);
        count(&mut self.ranks_of_two_classes, ranks && !same);
        let weights = match own.weights {
            Ok(Some(Ordering::Equal)) => &mut self.equal,
            Ok(Some(Ordering::Less)) => &mut self.lower,
            Ok(Some(Ordering::Greater)) => &mut self.higher,
            _ => &mut self.neither,
        };
        count(weights, true);
    }

    // The word beside its partner, in this order or the other.
    pub(crate) fn count_pair(&mut self, k: usize, word: &Word, generator: Generator) {
        let other = second_word(k, word, generator);
        if k / 60 % 2 == 1 {
            self.count_two(&other, word);
        } else {
            self.count_two(word, &other);
        }
    }

    // Ten answers are spoilt for lowering 1 in 3113 of rank 3: of the word refusal, place, repeat count and letters, of its tableau these, marks and letter
    // counts.
    pub(crate) fn spoil_moves(&mut self, word: &Word) {
        let own = || move_on_word(Side::Lowering, 1, word);
        let moves = &mut self.comparison;
        let told = word_moved(Side::Lowering, 1, word);
        moves.spoil(own(), &told, |moved| moved.place = Err(Refusal::Empty));
        moves.spoil(own(), &told, |moved| moved.place = Ok(5000));
        moves.spoil(own(), &told, |moved| moved.times = Ok(5000));
        moves.spoil(own(), &told, |moved| moved.after.letters[0] = 200);
        let before = plain_tableau(word);
        let own = || move_on_tableau(&move_on_word(Side::Lowering, 1, word), &before);
        let told = tableau_moved(Side::Lowering, 1, &before);
        moves.spoil(own(), &told, |moved| moved.place = Err(Refusal::Empty));
        moves.spoil(own(), &told, |moved| moved.place = Ok(5000));
        moves.spoil(own(), &told, |moved| moved.times = Ok(5000));
        moves.spoil(own(), &told, |moved| moved.after.letters[0] = 200);
        moves.spoil(own(), &told, |moved| moved.after.marks[0] = 200);
        moves.spoil(own(), &told, |moved| moved.after.counts[0] = 5000);
    }

    // Six answers are spoilt for 3243 of rank 4 beside 4323, which are of one class: of the words and of their tableaux the class, and where the second's rank
    // is 4 the weights too.
    pub(crate) fn spoil_two(&mut self, one: &Word, other: &mut Word) {
        for (rank, weights) in [(6, false), (4, true)] {
            other.rank = rank;
            let first = plain_tableau(one);
            let second = plain_tableau(other);
            for told in [words_told(one, other), tableaux_told(&first, &second)] {
                let own = || plain_two(&first, &second);
                self.comparison
                    .spoil(own(), &told, |two| two.class = Ok(false));
                if weights {
                    self.comparison
                        .spoil(own(), &told, |two| two.weights = Ok(None));
                }
            }
        }
    }
}
