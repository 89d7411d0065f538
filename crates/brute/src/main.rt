// A second implementation by plain insertion and plain scans, run against the kernel: it prints how many words, products, classes and states of windows were
// compared and how many differences were found, how often each answer to moves and to pairs of words came, and how many answers were spoilt on purpose and
// how many of these the same comparison found.
#![tactic(auto)]

mod answers;
mod comparing;
mod counting;
mod cutting;
mod following;
mod junctions;
mod kernel;
mod moving;
mod numbered;
mod partners;
mod picture;
mod scanning;
mod short_words;
mod two_words;

use crate::answers::{compare_answers, spoil_answers};
use crate::comparing::Comparison;
use crate::counting::Moves;
use crate::cutting::{compare_cut, compare_cuts, spoil_products};
use crate::following::{compare_windows, spoil_windows};
use crate::numbered::{compare_class, short_tableaux, spoil_classes};
use crate::short_words::{SHORT, short_word};
use plain_words::drawn::{Generator, below};
use plain_words::{WORDS, word_of};
use std::{fmt, io};

// What is printed.
#[derive(Clone, Copy, Debug)]
struct Report {
    words: Comparison,
    products: Comparison,
    classes: Comparison,
    moves: Moves,
    windows: Comparison,
}

impl fmt::Display for Report {
    fn fmt<W: fmt::Write>(&self, f: &mut fmt::Formatter<W>) -> fmt::Result {
        write!(f, "words {}", self.words)?;
        write!(f, "products {}", self.products)?;
        write!(f, "classes {}", self.classes)?;
        write!(f, "{}", self.moves)?;
        write!(f, "windows {}", self.windows)
    }
}

impl Report {
    // The words of document 01 and drawn ones: of each its answers, its product at one place, its moves, and what is so of it beside another word.
    fn compare_words(&mut self) {
        let mut generator = Generator::new(20201);
        for k in 0..WORDS {
            let word = word_of(k, &mut generator);
            compare_answers(&mut self.words, &word);
            compare_cut(
                &mut self.products,
                below(word.letters().len() + 1, k as u64),
                &word,
            );
            self.moves.count_moves(k, &word);
            self.moves.count_pair(k, &word, generator);
        }
    }

    // All words of at most 6 letters over 1 to 3, each cut at every place, and their classes.
    fn compare_short(&mut self) {
        let tableaux = short_tableaux();
        for k in 0..SHORT {
            compare_cuts(&mut self.products, &short_word(k));
            compare_class(&mut self.classes, k, &tableaux);
        }
        spoil_classes(&mut self.classes, &tableaux);
    }

    // Answers that are spoilt on purpose: for 4323, for 31 times 2, for 3113, for 3243 beside 4323, and for a window through which 4323 passes.
    fn spoil(&mut self) {
        let mut generator = Generator::new(0);
        let mut word = word_of(0, &mut generator);
        spoil_answers(&mut self.words, &word);
        spoil_windows(&mut self.windows, &word);
        spoil_products(&mut self.products, &short_word(32));
        self.moves.spoil_moves(&word_of(6, &mut generator));
        self.moves
            .spoil_two(&word_of(12, &mut generator), &mut word);
    }
}

// All comparisons, and what came of them.
fn main(rt: HostRuntime) -> io::Result<()> {
    let mut report = Report {
        words: Comparison::new(),
        products: Comparison::new(),
        classes: Comparison::new(),
        moves: Moves::new(),
        windows: Comparison::new(),
    };
    report.compare_words();
    report.compare_short();
    compare_windows(&mut report.windows);
    report.spoil();
    rt.print(report)
}
