// The cell of the oldest letter among the used ones.
ghost use Rattle.std.specs.Prelude.{◌≡◌, take};
ghost use Rattle.closings.specs.Oldest.{oldest_place};

use crate::lists::used_entries;

// The place of the first used entry 1, if there is one.
pub fn oldest_cell(used: usize, entries: &[u16]) -> Option<usize>
    ensures { result ≡ oldest_place (take used entries.now) }
{
    used_entries(used, entries)
        .iter()
        .position(|entry| *entry == 1)
}
