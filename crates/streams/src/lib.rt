// The program between a reader and a writer: what comes in through one, answered through the other. Where it is known which bytes a reader has left, as of
// one over memory, and what a writer holds, the contract fixes what is written. What the system gives and takes is not known; so `cases` runs this.
#![tactic(auto)]

ghost use Rattle.std.specs.Prelude.{◌+◌, ◌≤◌, IfSome, OnOk, length};
ghost use Rattle.std.specs.Io.KnownBytes.{Appends};
ghost use Rattle.outcomes.specs.LineReadings.{output};

use inputs::read_full;
use outputs::answer::answer;
use std::io;
use std::io::{Read, Write};

// Reads up to 4,097 bytes, however they arrive, and writes the answer. One byte more than a line may have is read, so that a longer input is seen to be one. A
// read that fails is the end of the input; where a write fails, nothing more of the answer is written. Either failure is handed on, and in no case is more taken.
pub fn answer_stream<R: Read, W: Write>(from: &mut R, to: &mut W) -> io::Result<()>
    ensures written { OnOk result (IfSome (R.remaining from.old) (λ text. Appends (W.contents to.old) (W.contents to.new) (output text))) }
    ensures taken { IfSome (R.remaining from.old) (λ text. IfSome (R.remaining from.new) (λ rest. length text ≤ length rest + 4097)) }
{
    let mut text = [0u8; 4097];
    let (got, ended) = read_full(from, &mut text);
    let mut out = [0u8; 16384];
    let Ok(bytes) = answer(&text[0..got], &mut out) else {
        return ended;
    };
    to.write_all(&out[0..bytes])?;
    ended
}
