// The program's whole output for its whole input, as a function on slices.
ghost use Rattle.std.specs.Prelude.{◌≤◌, ◌≡◌, length};
ghost use Rattle.grammar.specs.Lines.{e_line};
ghost use Rattle.outcomes.specs.LineOperations.{room_run};
ghost use Rattle.outcomes.specs.LineReadings.{answer_run, output};
ghost use Rattle.refusals.specs.Said.{number, place, said_value};
ghost use Rattle.outputs.specs.Printing.{Printed};

use crate::printing::print_word;
use refusals::answers::Sizes;
use refusals::numbers::check_room;
use refusals::refusal::Refusal;
use word_readers::word::read_word_line;
use writers::line::write_refusal_line;

// The E line of a refusal; how many bytes it has.
#[tactic(auto, using(crate::specs::Answer::answering))]
fn print_refusal(refusal: Refusal, out: &mut [u8]) -> usize
    requires { length (e_line (number refusal) (place refusal)) ≤ length out.old }
    ensures { Printed (e_line (number refusal) (place refusal)) out.old out.new result }
{
    let Ok(bytes) = write_refusal_line(refusal, out) else {
        return 0;
    };
    bytes
}

// The output for a text of at most 4,096 bytes.
#[tactic(auto, using(crate::specs::Answer::answering))]
fn print_line(text: &[u8], out: &mut [u8]) -> usize
    requires text_len_bound { length text.now ≤ 4096 }
    requires in_bounds { 16384 ≤ length out.old }
    ensures { Printed (output text.now) out.old out.new result }
{
    let mut word = [0u8; 1024];
    let read = read_word_line(text, &mut word);
    let Ok(Sizes { rank, count }) = read else {
        return print_refusal(read.unwrap_err(), out);
    };
    print_word(rank, &word[..count], out)
}

// The output for any text, from the front of a buffer that has room for every output.
#[tactic(auto, using(crate::specs::Answer::answering))]
fn print_text(text: &[u8], out: &mut [u8]) -> usize
    requires { 16384 ≤ length out.old }
    ensures { Printed (output text.now) out.old out.new result }
{
    if text.len() > 4096 {
        return print_refusal(Refusal::Line(4096), out);
    }
    print_line(text, out)
}

// Bytes into lent memory, or the refusal 13, which leaves it as it was.
#[tactic(auto, unfolding(outcomes::specs::LineOperations::room_run))]
fn hand_over(bytes: &[u8], out: &mut [u8]) -> Result<usize, Refusal>
    ensures { (said_value result, out.new) ≡ room_run bytes.now out.old }
{
    check_room(bytes.len(), out.len())?;
    out[..bytes.len()].copy_from_slice(bytes);
    Ok(bytes.len())
}

// What the program prints for a text: the three lines of its word, or one E line. Any bytes may come in; nothing but room is refused.
#[tactic(auto, using(crate::specs::Answer::answering))]
pub fn answer(text: &[u8], out: &mut [u8]) -> Result<usize, Refusal>
    ensures { (said_value result, out.new) ≡ answer_run text.now out.old }
{
    let mut lines = [0u8; 16384];
    let bytes = print_text(text, &mut lines);
    hand_over(&lines[..bytes], out)
}
