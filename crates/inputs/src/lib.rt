// Input into a lent list, over any reader: of a reader whose bytes are known, as of one over memory, the contract says which of them have come.
#![tactic(auto)]

ghost use Rattle.std.specs.Prelude.{◌<◌, ◌≤◌, length, take, OnOk};
ghost use Rattle.std.specs.Io.KnownBytes.{Consumes, IsAtEnd};

use std::io;
use std::io::Read;

// Reads until there is no more room, the input ends or a read fails; answers how many bytes have come, and the failure if that was the end.
pub fn read_full<R: Read>(from: &mut R, out: &mut [u8]) -> (usize, io::Result<()>)
    ensures within { result.0 ≤ length out.new }
    ensures bytes { Consumes (R.remaining from.old) (R.remaining from.new) (take result.0 out.new) }
    ensures end { OnOk result.1 (result.0 < length out.new → IsAtEnd (R.remaining from.new)) }
{
    let mut done = 0;
    // Kept: how far a turn goes on is the reader's choice, no step of one.
    while done < out.len() {
        match from.read(&mut out[done..]) {
            Ok(0) => return (done, Ok(())),
            Ok(more) => done += more,
            Err(error) => return (done, Err(error)),
        }
    }
    (done, Ok(()))
}
