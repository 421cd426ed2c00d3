//! How many rounds a log has, counted as early as they can be with one mark for each device.

ghost use Rattle.std.specs.Prelude.{◌≡◌, ◌+◌, ◌<◌, ◌≤◌, ℕ, true, false, length, slice_set, slice_index, if◌then◌else◌};
ghost use Rattle.fc_values.specs.Fields.{Rises};
ghost use Rattle.firing_core.specs.Entries.{entry_of, entries_of};
ghost use Rattle.firing_core.specs.Rounds.{HasRounds, after_edit, is_edit};
ghost use Rattle.round_count.specs.Marks.{moved, noted, wanting};

use firing_core::Entry;

// What a device still wants in the round: a firing, the end of one, or nothing.
const WANTS_FIRING: u8 = 0;

const WANTS_END: u8 = 1;

const WANTS_NOTHING: u8 = 2;

/// The greatest number of rounds in the part of a log after its last edit. `live` has the numbers of the devices. What
/// `marks` holds before and after has no meaning.
pub fn rounds(live: &[u32], log: &[Entry], marks: &mut [u8]) -> u64
    requires rising { Rises live.now }
    requires some { 0 < length live.now }
    requires marks { length marks.old ≡ length live.now }
    ensures has { HasRounds live.now (after_edit (entries_of log.now)) result }
    ensures greatest { (k : ℕ) → HasRounds live.now (after_edit (entries_of log.now)) k → k ≤ result }
{
    let mut count = 0;
    let mut left = live.len();
    marks.fill(WANTS_FIRING);
    for entry in after_last_edit(log) {
        if fires(live, marks, entry) {
            left -= 1;
        }
        if left == 0 {
            count += 1;
            left = live.len();
            marks.fill(WANTS_FIRING);
        }
    }
    count
}

/// The part of a log after its last edit.
pub fn after_last_edit(log: &[Entry]) -> &[Entry]
    ensures { entries_of result.now ≡ after_edit (entries_of log.now) }
{
    let mut start = 0;
    for (at, entry) in log.iter().enumerate() {
        if is_edit(entry) {
            start = at + 1;
        }
    }
    &log[start..]
}

// Whether an entry is an edit.
fn is_edit(entry: &Entry) -> bool
    ensures { result ≡ is_edit (entry_of entry.now) }
{
    matches!(entry, Entry::Edit(_))
}

// Notes an entry in the marks, and whether it ends a firing that its device wanted.
fn fires(live: &[u32], marks: &mut [u8], entry: &Entry) -> bool
    requires rising { Rises live.now }
    requires marks { length marks.old ≡ length live.now }
    ensures marks { marks.new ≡ noted (entry_of entry.now) live.now marks.old }
    ensures wanting { wanting marks.new + (if result then 1 else 0) ≡ wanting marks.old }
{
    match entry {
        Entry::Begin(device) => {
            advance(live, marks, *device, WANTS_FIRING, WANTS_END);
            false
        }
        Entry::End(device) => advance(live, marks, *device, WANTS_END, WANTS_NOTHING),
        Entry::Idle | Entry::Edit(_) => false,
    }
}

// Puts the mark `to` in the place of a device's mark `from`, and whether the device had it.
fn advance(live: &[u32], marks: &mut [u8], device: u32, from: u8, to: u8) -> bool
    requires rising { Rises live.now }
    requires marks { length marks.old ≡ length live.now }
    ensures marks { marks.new ≡ moved device from to live.now marks.old }
    ensures same { result ≡ false → marks.new ≡ marks.old }
    ensures set { result ≡ true → (at : ℕ) × (at < length marks.old) × (slice_index marks.old at ≡ from)
        × (marks.new ≡ slice_set marks.old at to) }
{
    match live.binary_search(&device) {
        Ok(at) if marks[at] == from => {
            marks[at] = to;
            true
        }
        _ => false,
    }
}
