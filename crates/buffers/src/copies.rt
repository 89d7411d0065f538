// Values copied into lent memory, as many as it has room for.
ghost use Rattle.std.specs.Prelude.{◌≡◌};
ghost use Rattle.buffers.specs.Copies.{copied};

// Values, into the beginning of lent memory.
pub fn copy<T: Copy>(values: &[T], out: &mut [T])
    ensures { out.new ≡ copied values.now out.old }
{
    let end = values.len().min(out.len());
    out[..end].copy_from_slice(&values[..end]);
}
