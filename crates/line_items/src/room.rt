// Local memory for the items of a line, which are judged before anything is copied to the caller.
ghost use Rattle.std.specs.Prelude.{◌≡◌};
ghost use Rattle.line_items.specs.Blank.{blank};

// Room for the letters or the entries of a line.
// Kept: no_letters and no_marks differ in the type alone, but one function of any type would be given the zero to repeat, and be no more than `[zero; 1024]`.
#[tactic(auto, unfolding(crate::specs::Blank::blank))]
pub fn no_letters() -> [u16; 1024]
    ensures { result ≡ blank 1024 }
{
    [0u16; 1024]
}

// Room for the marks of a line.
#[tactic(auto, unfolding(crate::specs::Blank::blank))]
pub fn no_marks() -> [u8; 1024]
    ensures { result ≡ blank 1024 }
{
    [0u8; 1024]
}
