// How many bytes the field of a number has, and a line that begins with one.
ghost use Rattle.std.specs.Prelude.{min, ◌≡◌};
ghost use Rattle.grammar.specs.Lines.{field};
ghost use Rattle.line_sizes.specs.Sizes.{Counted, line_size};

// How many bytes the field of a number takes: a comma, and one for each digit. Letters have at most two digits, so that no loop counts them.
#[tactic(auto, using(crate::specs::Sizes::sizing))]
pub fn field_size(value: usize) -> usize
    ensures { Counted 21 (field value) result }
{
    if value < 10 {
        return 2;
    }
    if value < 100 {
        return 3;
    }
    let mut size = 4;
    let mut left = value / 100;
    // Kept: the loop ends with the digits that are left, which no count tells before it.
    while 10 <= left {
        left /= 10;
        size += 1;
    }
    size
}

// How many bytes a line takes whose first field is of this number, with so many bytes after it before the line feed. More than 65,536 of them are taken for
// 65,536, so that the sum fits; no line has as many.
#[tactic(auto, using(crate::specs::Sizes::sizing))]
pub fn line_size(first: usize, rest: usize) -> usize
    ensures { result ≡ line_size first (min rest 65536) }
{
    2 + field_size(first) + rest.min(65536)
}
