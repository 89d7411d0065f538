// A field: a comma and a decimal number. Every number of every line is written so.
ghost use Rattle.std.specs.Prelude.{◌+◌, ◌<◌, ◌≤◌, ◌≡◌, length};
ghost use Rattle.grammar.specs.Lines.{field};
ghost use Rattle.writers.specs.Laying.{Laid};

use line_sizes::sizes::field_size;

// The byte of a digit.
#[tactic(auto, using(crate::specs::Fields::fielding))]
fn digit(value: usize) -> u8
    requires { value < 10 }
    ensures { result ≡ 48 + value }
{
    b'0' + value as u8
}

// Writes the field of a number from a place on, and answers the place after it: one digit or two as they are, more from the last to the first.
#[tactic(auto, using(crate::specs::Fields::fielding))]
pub(crate) fn write_field(value: usize, out: &mut [u8], at: usize) -> usize
    requires { at + length (field value) ≤ length out.old }
    ensures { Laid (field value) out.old at out.new result }
{
    if value < 10 {
        out[at] = b',';
        out[at + 1] = digit(value);
        return at + 2;
    }
    if value < 100 {
        out[at] = b',';
        out[at + 1] = digit(value / 10);
        out[at + 2] = digit(value % 10);
        return at + 3;
    }
    let end = at + field_size(value);
    // Kept: the loop ends with the digits that are left, and no count of them is known before it.
    let mut left = value;
    let mut i = end;
    while 10 <= left {
        i -= 1;
        out[i] = digit(left % 10);
        left /= 10;
    }
    out[at + 1] = digit(left);
    out[at] = b',';
    end
}
