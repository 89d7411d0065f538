// Letters that were read, narrowed to bytes.
ghost use Rattle.std.specs.Prelude.{map, ◌≡◌};
ghost use Rattle.acceptance.specs.Bytes.{narrowed};
ghost use Rattle.scans.specs.Kept.{kept};
ghost use Rattle.line_items.specs.Blank.{blank};

use acceptance::bytes::narrow;

// Letters as bytes, at the beginning of an array, as many as it has room for; 0 behind them.
pub fn narrow_letters(letters: &[u16]) -> [u8; 1024]
    ensures { result ≡ kept (map narrowed letters.now) (blank 1024) }
{
    let count = letters.len().min(1024);
    let mut bytes = [0u8; 1024];
    for i in 0..count {
        bytes[i] = narrow(letters[i]);
    }
    bytes
}
