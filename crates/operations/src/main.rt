// Makes every call that a table names, and prints each line of the table with what came of its call (notation).
#![tactic(auto)]

mod calls;
mod given;
mod pairs_lent;
mod questions;
mod tableaux_lent;
mod writing;

use crate::calls::make_call;
use notation::arguments::Arguments;
use notation::source::read_argument;
use notation::texts::cut;
use std::io;

// A line, and what came of its call.
fn answer_line(rt: &impl Print, line: &[u8]) -> io::Result<()> {
    rt.write_all(line)?;
    rt.print(" = ")?;
    make_call(rt, Arguments::new(line))?;
    rt.println("")
}

// All lines of a table, and what came of each.
fn answer_table(rt: &impl Print, table: &[u8]) -> io::Result<()> {
    let mut rest = table;
    // Kept: a turn cuts off a line.
    while !rest.is_empty() {
        let (line, after) = cut(rest, b'\n');
        answer_line(rt, line)?;
        rest = after;
    }
    Ok(())
}

// The table that the first argument names.
fn main(rt: HostRuntime) -> io::Result<()> {
    let mut space = [0u8; 131072];
    let table = read_argument(&rt, &mut space);
    answer_table(&rt, table)
}
