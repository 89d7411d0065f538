// `ribbon`: one W line from standard input; the P line, the W line of the column reading and the J line to standard output, or one E line.
#![tactic(auto)]

use streams::answer_stream;

// It ends with 0 even where its output cannot be written.
fn main(rt: HostRuntime) {
    let _ = answer_stream(&mut rt.stdin(), &mut rt.stdout());
}
