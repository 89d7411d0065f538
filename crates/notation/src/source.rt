// Where the table comes from.
ghost use Rattle.std.specs.Prelude.{◌≤◌, length};

use inputs::read_full;
use std::env::Env;
use std::fs::Files;
use std::{fs, io, str};

// Says on standard error why a file cannot be read.
fn tell(rt: &impl Eprint, path: &str, error: io::Error) {
    let _ = eprintln!(rt; "{path}: {error}");
}

// Reads the file that stands under a name, as far as there is room, and answers how many bytes it has; none where it cannot be opened.
fn read_path(rt: &(impl Files + Eprint), path: &str, out: &mut [u8]) -> usize
    ensures { result ≤ length out.new }
{
    let mut file = match fs::open(rt, path) {
        Ok(file) => file,
        Err(error) => {
            tell(rt, path, error);
            return 0;
        }
    };
    let (count, ended) = read_full(&mut file, out);
    if let Err(error) = ended {
        tell(rt, path, error);
    }
    count
}

// The bytes of the file whose name is the program's first argument. A name that is missing or no text is an empty one, which no file has.
pub fn read_argument<'a>(rt: &(impl Env + Files + Eprint), out: &'a mut [u8]) -> &'a mut [u8]
    ensures { length result.now ≤ length out.old }
{
    let mut name = [0u8; 4096];
    let n = rt.arg(1, &mut name).unwrap_or(0);
    let count = read_path(rt, str::from_utf8(&name[..n]).unwrap_or(""), out);
    &mut out[0..count]
}
