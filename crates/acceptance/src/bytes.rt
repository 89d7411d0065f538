// Letters that were read as wider numbers, as bytes.
ghost use Rattle.std.specs.Prelude.{◌≡◌};
ghost use Rattle.acceptance.specs.Bytes.{narrowed};

// A letter as a byte: one that no byte holds becomes 0, which is no letter either.
pub fn narrow(letter: u16) -> u8
    ensures { result ≡ narrowed letter }
{
    u8::try_from(letter).unwrap_or(0)
}
