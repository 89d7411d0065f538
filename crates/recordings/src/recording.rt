// The checks on a recording ribbon: 7 and 8.
ghost use Rattle.std.specs.Prelude.{◌≡◌, [], length};
ghost use Rattle.outcomes.specs.Judgements.{entries_judged, outside, recording_judged};
ghost use Rattle.recordings.specs.Clear.{Cleared};
ghost use Rattle.recordings.specs.Seen.{InTable, Judged, Met, Reaches, Seen};
ghost use Rattle.refusals.specs.Said.{said_verdict};

use refusals::refusal::Refusal;
use shapes::steps::step_fault;

// Whether a number is 0 or above the limit.
fn number_outside(limit: usize, number: usize) -> bool
    ensures { result ≡ outside limit number }
{
    (number < 1) | (limit < number)
}

// Whether an entry is 0, above the limit, or met before: its bit in the table, bit (entry - 1) % 64 of word (entry - 1) / 64.
#[tactic(auto, using(crate::specs::Seen::entering))]
fn entry_wrong(limit: usize, seen: &[u64], entry: u16) -> bool
    requires { Reaches (length seen.now) limit }
    ensures { Judged limit seen.now entry result }
{
    let number = usize::from(entry);
    if number_outside(limit, number) {
        return true;
    }
    let at = number - 1;
    ((seen[at / 64] >> (at % 64)) & 1) == 1
}

// Sets the bit of an entry.
#[tactic(auto, using(crate::specs::Seen::entering))]
fn meet(seen: &mut [u64], entry: u16)
    requires { InTable (length seen.old) entry }
    ensures { Met seen.old entry seen.new }
{
    let at = usize::from(entry) - 1;
    seen[at / 64] |= 1 << (at % 64);
}

// 7 with a table of bits, one for each entry that can pass, all 0 at first.
#[tactic(auto, using(crate::specs::Entries::meeting))]
fn scan_entries(limit: usize, entries: &[u16], seen: &mut [u64]) -> Result<(), Refusal>
    requires seen { Seen seen.old [] }
    requires reaches { Reaches (length seen.old) limit }
    ensures { said_verdict result ≡ entries_judged limit entries.now }
{
    for (place, entry) in entries.iter().enumerate() {
        if entry_wrong(limit, seen, *entry) {
            return Err(Refusal::Entry(place));
        }
        meet(seen, *entry);
    }
    Ok(())
}

// Whether an entry is 0, above the limit, or noted where one before it is: at its remainder by 1,024, which no two entries from 1 to 1,024 share. The loop leaves at
// no place.
#[tactic(auto, using(crate::specs::Noted::noting))]
fn some_entry_wrong(limit: usize, entries: &[u16]) -> bool
    ensures { Cleared (entries_judged limit entries.now) result }
{
    let mut noted = [false; 1024];
    let mut wrong = false;
    for entry in entries {
        let number = usize::from(*entry);
        let at = number % 1024;
        wrong |= number_outside(limit, number) | noted[at];
        noted[at] = true;
    }
    wrong
}

// 7: each entry is 1 to limit, and none is met twice.
pub fn check_entries(limit: usize, entries: &[u16]) -> Result<(), Refusal>
    ensures { said_verdict result ≡ entries_judged limit entries.now }
{
    if !some_entry_wrong(limit, entries) {
        return Ok(());
    }
    let mut seen = [0u64; 1024];
    scan_entries(limit, entries, &mut seen)
}

// 8: the entries rise at right steps and fall at down steps.
pub fn check_recording(entries: &[u16], marks: &[u8]) -> Result<(), Refusal>
    ensures { said_verdict result ≡ recording_judged entries.now marks.now }
{
    step_fault(entries, marks).map_or(Ok(()), |place| Err(Refusal::Step(place)))
}
