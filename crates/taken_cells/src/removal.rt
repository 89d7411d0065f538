// A cell taken out of a ribbon: the letters and the marks that it leaves.
ghost use Rattle.std.specs.Prelude.{◌≡◌};
ghost use Rattle.taken_cells.specs.Removal.{pulled_free, taken_out};

// Kept: 20 bytes by value and a number of cells, in fixed memory: a ribbon that lacks a cell is a new one, beside the old, and no heap may hold it.

// The bytes up to a last place without the one at a place: those after it move one back. Bytes past the last place do not count, so none is moved.
#[tactic(auto, using(crate::specs::Removal::pulling))]
pub fn pulled(bytes: [u8; 20], place: usize, last: usize) -> [u8; 20]
    ensures { result ≡ taken_out place last bytes }
{
    let mut out = bytes;
    if 19 < last {
        return out;
    }
    for i in place..last {
        out[i] = out[i + 1];
    }
    out
}

// The marks without the one at a place. What stood before and after that cell is joined freely.
#[tactic(auto, using(crate::specs::Removal::pulling))]
pub fn pulled_free(marks: [u8; 20], place: usize, last: usize) -> [u8; 20]
    ensures { result ≡ pulled_free place last marks }
{
    let mut out = pulled(marks, place, last);
    if 19 < place {
        return out;
    }
    out[place] = 2;
    out
}
