// The calls, by the names of operations. The arguments of a line stand in the order of its call: those that the call writes are printed after its answer.
use crate::pairs_lent::{insert, insert_word, read_pair, remove};
use crate::questions::{
    check_pair, count_tableau, count_word, look, one_tableau, one_word, two_tableaux, two_words,
};
use crate::tableaux_lent::{move_tableau, multiply, read_tableau};
use crate::writing::{
    change_word, convert_line, convert_two, read_column, read_word, word_back, word_by_number,
    write_pair, write_tableau, write_word,
};
use class_numbers::classes::{class_number, class_size};
use classes::two_words::same_class;
use lines::runs::run_line_of_word;
use lines::tableau::tableau_line_of_word;
use notation::arguments::Arguments;
use operators::moves::{lower_count_word, lower_word, raise_count_word, raise_word};
use readers::tableau::read_tableau_line;
use run_conversions::forms::{runs_to_tableau, tableau_to_runs};
use run_readers::runs::read_run_line;
use std::io;
use stored_tableaux::two_tableaux::{compare_weights_of_tableaux, same_class_of_tableaux};
use tableaux::moves::{lower_count_tableau, lower_tableau, raise_count_tableau, raise_tableau};
use validity::counted::check_counted_tableau;
use weights::two_words::compare_weights;
use words::junctions::junctions;
use writers::line::{write_junction_line, write_run_line, write_tableau_line, write_word_line};

// How many elements of a list are read: of the first, which may be a text of many thousand bytes, of the second, and of every other.
pub(crate) const FIRST: usize = 18100;

pub(crate) const SECOND: usize = 2200;

pub(crate) const OTHER: usize = 1100;

// The call of a line.
pub(crate) fn make_call(rt: &impl Print, mut call: Arguments<'_>) -> io::Result<()> {
    let name = call.field();
    ask(rt, name, call)
}

// Questions about words, about a tableau, about a pair and about two tableaux; any other call.
fn ask(rt: &impl Print, name: &[u8], call: Arguments<'_>) -> io::Result<()> {
    match name {
        b"raise_count_word" => count_word(rt, call, raise_count_word),
        b"lower_count_word" => count_word(rt, call, lower_count_word),
        b"same_class" => two_words(rt, call, same_class),
        b"compare_weights" => two_words(rt, call, compare_weights),
        b"junctions" => one_word(rt, call, junctions),
        b"class_number" => one_word(rt, call, class_number),
        b"class_size" => one_tableau(rt, call, class_size),
        b"raise_count_tableau" => count_tableau(rt, call, raise_count_tableau),
        b"lower_count_tableau" => count_tableau(rt, call, lower_count_tableau),
        b"look_once" => look(rt, call),
        b"check_counted_tableau" => one_tableau(rt, call, check_counted_tableau),
        b"check_counted_pair" => check_pair(rt, call),
        b"same_class_of_tableaux" => two_tableaux(rt, call, same_class_of_tableaux),
        b"compare_weights_of_tableaux" => two_tableaux(rt, call, compare_weights_of_tableaux),
        _ => change(rt, name, call),
    }
}

// Moves of a word, a W line read, and all that write lines and words; any other call.
fn change(rt: &impl Print, name: &[u8], call: Arguments<'_>) -> io::Result<()> {
    match name {
        b"raise_word" => change_word(rt, call, raise_word),
        b"lower_word" => change_word(rt, call, lower_word),
        b"read_word_line" => read_word(rt, call),
        b"write_word_line" => write_word(rt, call, write_word_line),
        b"write_junction_line" => write_word(rt, call, write_junction_line),
        b"tableau_line_of_word" => write_word(rt, call, tableau_line_of_word),
        b"run_line_of_word" => write_word(rt, call, run_line_of_word),
        b"tableau_to_runs" => convert_line(rt, call, tableau_to_runs),
        b"runs_to_tableau" => convert_line(rt, call, runs_to_tableau),
        b"convert_lines" => convert_two(rt, call),
        b"write_run_line" => write_tableau(rt, call, write_run_line),
        b"write_tableau_line" => write_tableau(rt, call, write_tableau_line),
        b"write_pair_line" => write_pair(rt, call),
        b"column_reading" => read_column(rt, call),
        b"word_of_pair" => word_back(rt, call),
        b"class_word" => word_by_number(rt, call),
        _ => change_cells(rt, name, call),
    }
}

// The calls that write into a tableau or a pair.
fn change_cells(rt: &impl Print, name: &[u8], call: Arguments<'_>) -> io::Result<()> {
    match name {
        b"raise_tableau" => move_tableau(rt, call, raise_tableau),
        b"lower_tableau" => move_tableau(rt, call, lower_tableau),
        b"read_tableau_line" => read_tableau(rt, call, read_tableau_line),
        b"read_run_line" => read_tableau(rt, call, read_run_line),
        b"product" => multiply(rt, call),
        b"read_pair_line" => read_pair(rt, call),
        b"pair_of_word" => insert_word(rt, call),
        b"insert_letter" => insert(rt, call),
        b"remove_oldest" => remove(rt, call),
        _ => rt.print("unknown"),
    }
}
