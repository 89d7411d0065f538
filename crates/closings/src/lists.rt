// One list of a pair once the cell at a place is out of the used ones. The tail from that place on is lent to be pulled: each used element after the place
// moves one back, and the last used place keeps its value. A place or a used count beyond the list is taken for its end.
ghost use Rattle.std.specs.Prelude.{◌+◌, ◌<◌, ◌≡◌, get_or, take};
ghost use Rattle.windows.specs.Gaps.{joint, lowered};
ghost use Rattle.closings.specs.Closings.{closed_elements, closed_entries, closed_marks};

use buffers::pulls::pull;

// The used entries.
#[tactic(auto, using(std::proofs::lemmas::List::take_min))]
pub(crate) fn used_entries(used: usize, entries: &[u16]) -> &[u16]
    ensures { result.now ≡ take used entries.now }
{
    &entries[..used.min(entries.len())]
}

// A used entry, 0 beyond.
fn entry_at(place: usize, used: usize, entries: &[u16]) -> u16
    ensures { result ≡ get_or (take used entries.now) place 0 }
{
    used_entries(used, entries).get(place).copied().unwrap_or(0)
}

// The mark of the cell after the one at this place, once that one is out: down where its entry is below that of the cell before.
#[tactic(auto, using(crate::specs::Closings::joining))]
fn joint_mark(at: usize, used: usize, entries: &[u16]) -> u8
    requires { at + 1 < used }
    ensures { result ≡ joint at (take used entries.now) }
{
    if at == 0 {
        return 0;
    }
    u8::from(entry_at(at + 1, used, entries) < entry_at(at - 1, used, entries))
}

// The used letters or entries without the one at this place.
#[tactic(auto, using(crate::specs::Closings::closing))]
pub fn close_elements<T: Copy>(at: usize, used: usize, elements: &mut [T])
    ensures { elements.new ≡ closed_elements at used elements.old }
{
    let end = used.min(elements.len());
    if at < end {
        pull(&mut elements[at..end]);
    }
}

// The used marks without the one at this place. Where a cell follows, the step into it is set anew, by the entries as they are before any of them moves.
#[tactic(auto, using(crate::specs::Closings::closing))]
pub fn close_marks(at: usize, used: usize, marks: &mut [u8], entries: &[u16])
    ensures { marks.new ≡ closed_marks at used entries.now marks.old }
{
    let end = used.min(marks.len());
    if at < end {
        pull(&mut marks[at..end]);
        if at + 1 < end {
            marks[at] = joint_mark(at, used, entries);
        }
    }
}

// Each entry one less; 0 stays.
#[tactic(auto, using(crate::specs::Lowering::lowering))]
fn lower_entries(entries: &mut [u16])
    ensures { entries.new ≡ lowered entries.old }
{
    for entry in entries.iter_mut() {
        *entry = entry.saturating_sub(1);
    }
}

// The used entries without the one at this place, each one less.
#[tactic(auto, using(crate::specs::Closings::closing))]
pub fn close_entries(at: usize, used: usize, entries: &mut [u16])
    ensures { entries.new ≡ closed_entries at used entries.old }
{
    close_elements(at, used, entries);
    let end = used.min(entries.len());
    let left = if at < end { end - 1 } else { end };
    lower_entries(&mut entries[..left]);
}
