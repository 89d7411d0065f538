// Runs every file that its arguments name through the code of the program `ribbon`, and prints for each its name and what the program answers. The output
// is held to crates/cases/stdout, which scripts/expected.py makes without the kernel.
#![tactic(auto)]

use std::env::{Env, FillError};
use std::fs::Files;
use std::{fs, io, str};
use streams::answer_stream;

// One file: its name, then the program's whole output for it. A file that cannot be opened is said to be so, which no expected output says.
fn answer_file(rt: &(impl Files + Print), path: &[u8]) -> io::Result<()> {
    rt.write_all(path)?;
    rt.write_all(b"\n")?;
    match fs::open(rt, str::from_utf8(path).unwrap_or("")) {
        Ok(mut file) => answer_stream(&mut file, &mut io::writer(rt)),
        Err(_) => rt.write_all(b"this file cannot be opened\n"),
    }
}

// The file that an argument names, and whether there is such an argument.
fn answer_argument(rt: &(impl Env + Files + Print), i: usize) -> io::Result<bool> {
    let mut path = [0u8; 4096];
    match rt.arg(i, &mut path) {
        Ok(n) => answer_file(rt, &path[..n])?,
        Err(FillError::TooLong) => answer_file(rt, b"")?,
        Err(FillError::NotPresent) => return Ok(false),
    }
    Ok(true)
}

// All arguments, in their order.
fn main(rt: HostRuntime) -> io::Result<()> {
    for i in 1..usize::MAX {
        if !answer_argument(&rt, i)? {
            break;
        }
    }
    Ok(())
}
