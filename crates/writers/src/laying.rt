// Whole lines, each of which begins with the letter of its kind and a field. The bytes needed are counted, the room is judged, and only then a byte is
// written.
ghost use Rattle.std.specs.Prelude.{◌+◌, ◌≤◌, ◌∷◌, ◌≡◌, List, ℕ, length};
ghost use Rattle.grammar.specs.Lines.{cell, cells, field, first_cell, items};
ghost use Rattle.line_sizes.specs.Sizes.{Counted};
ghost use Rattle.outcomes.specs.LineOperations.{room_run};
ghost use Rattle.refusals.specs.Said.{said_value};
ghost use Rattle.writers.specs.Items.{listed};
ghost use Rattle.writers.specs.Laying.{Laid};
ghost use Rattle.writers.specs.Lines.{line_of};
ghost use Rattle.writers.specs.Parts.{Alike, parts};
ghost use Rattle.writers.specs.RunForms.{run_form};

use crate::fields::write_field;
use crate::items::{list_size, parts_size, ribbon_size, write_list, write_parts, write_ribbon};
use crate::runs::{runs_size, write_runs};
use lent::tableaux::{Pair, Tableau};
use line_sizes::sizes::{field_size, line_size};
use refusals::numbers::check_room;
use refusals::refusal::Refusal;

// What follows the first field of a line.
pub(crate) trait Rest {
    // Its bytes.
    ghost bytes: { Self → List ℕ };

    // What is asked of its values.
    ghost ready: { Self → Type 0 };

    // How many bytes it takes.
    fn size(&self) -> usize
        requires { ready self.now }
        ensures { Counted 65536 (bytes self.now) result };

    // Writes it from a place on, and answers the place after it.
    fn write(&self, out: &mut [u8], start: usize) -> usize
        requires ready { ready self.now }
        requires room { start + length (bytes self.now) ≤ length out.old }
        ensures { Laid (bytes self.now) out.old start out.new result };
}

// One number more.
#[derive(Clone, Copy)]
pub(crate) struct Number(pub usize);

impl Rest for Number {
    ghost bytes = { λ n. field n.0 };

    ghost ready = { λ _. Unit {0} };

    fn size(&self) -> usize {
        field_size(self.0)
    }

    fn write(&self, out: &mut [u8], start: usize) -> usize {
        write_field(self.0, out, start)
    }
}

// The letters of a word.
#[derive(Clone, Copy)]
pub(crate) struct Letters<'a>(pub &'a [u8]);

impl<'a> Rest for Letters<'a> {
    ghost bytes = { λ w. listed (length w.0.now) (items field field w.0.now) };

    ghost ready = { λ w. length w.0.now ≤ 1024 };

    fn size(&self) -> usize {
        list_size(self.0)
    }

    fn write(&self, out: &mut [u8], start: usize) -> usize {
        write_list(self.0, out, start)
    }
}

// The cells of a tableau.
#[derive(Clone, Copy)]
pub(crate) struct Cells<'a>(pub Tableau<'a>);

impl<'a> Rest for Cells<'a> {
    ghost bytes = { λ t. listed (length t.0.letters.now) (items first_cell cell (cells t.0.letters.now t.0.marks.now)) };

    ghost ready = { λ t. (length t.0.letters.now ≤ 1024) × (length t.0.marks.now ≡ length t.0.letters.now) };

    fn size(&self) -> usize {
        ribbon_size(self.0.letters, self.0.marks)
    }

    fn write(&self, out: &mut [u8], start: usize) -> usize {
        write_ribbon(self.0.letters, self.0.marks, out, start)
    }
}

// The runs of the cells of a tableau.
#[derive(Clone, Copy)]
pub(crate) struct Runs<'a>(pub Tableau<'a>);

impl<'a> Rest for Runs<'a> {
    ghost bytes = { λ t. run_form t.0.letters.now t.0.marks.now };

    ghost ready = { λ t. (length t.0.letters.now ≤ 1024) × (length t.0.marks.now ≡ length t.0.letters.now) };

    fn size(&self) -> usize {
        runs_size(self.0.letters, self.0.marks)
    }

    fn write(&self, out: &mut [u8], start: usize) -> usize {
        write_runs(self.0.letters, self.0.marks, out, start)
    }
}

// The cells of a pair, and its entries.
impl<'a> Rest for Pair<'a> {
    ghost bytes = { λ p. parts p.letters.now p.marks.now p.entries.now };

    ghost ready = { λ p. Alike p.letters.now p.marks.now p.entries.now };

    fn size(&self) -> usize {
        parts_size(self.letters, self.marks, self.entries)
    }

    fn write(&self, out: &mut [u8], start: usize) -> usize {
        write_parts(self.letters, self.marks, self.entries, out, start)
    }
}

// Writes the letter of the kind and the first field.
#[tactic(auto, using(crate::specs::Lines::heading))]
fn write_head(kind: u8, first: usize, out: &mut [u8]) -> usize
    requires { 1 + length (field first) ≤ length out.old }
    ensures { Laid (kind ∷ field first) out.old 0 out.new result }
{
    out[0] = kind;
    write_field(first, out, 1)
}

// Writes a line of a kind, its first field and what follows it.
#[tactic(auto, using(crate::specs::Lines::lining))]
pub(crate) fn write_line<R: Rest>(
    kind: u8,
    first: usize,
    rest: &R,
    out: &mut [u8],
) -> Result<usize, Refusal>
    requires { R.ready rest.now }
    ensures { (said_value result, out.new) ≡ room_run (line_of kind first (R.bytes rest.now)) out.old }
{
    let need = line_size(first, rest.size());
    check_room(need, out.len())?;
    let at = write_head(kind, first, out);
    let end = rest.write(out, at);
    out[end] = b'\n';
    Ok(need)
}
