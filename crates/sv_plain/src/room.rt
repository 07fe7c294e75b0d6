ghost use Rattle.std.specs.Prelude.{◌≡◌, min};
ghost use Rattle.sv_rules.specs.Entries.{counted_entries, held_elements, is_full};
ghost use Rattle.sv_rules.specs.Journal.{journal_of};

use sv_events::Entry;
use sv_rules::{ENTRY_LIMIT, HELD_LIMIT, capped_weight, is_leave};

fn counted_entries(entries: &[Entry]) -> usize
    ensures { result ≡ counted_entries (journal_of entries.now) }
{
    let mut count = 0;
    for entry in entries {
        if !is_leave(&entry.act) {
            count += 1;
        }
    }
    count
}

// How many elements the entries weigh, up to the limit.
fn capped_elements(entries: &[Entry]) -> u64
    ensures { result ≡ min (held_elements (journal_of entries.now)) HELD_LIMIT }
{
    let mut held = 0;
    for entry in entries {
        held = (held + capped_weight(entry)).min(HELD_LIMIT);
    }
    held
}

/// Whether the entries leave room for none but leaves.
pub fn is_full(entries: &[Entry]) -> bool
    ensures { result ≡ is_full (journal_of entries.now) }
{
    counted_entries(entries) >= ENTRY_LIMIT || capped_elements(entries) >= HELD_LIMIT
}
