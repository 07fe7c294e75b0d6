//! The processor as a state that parties enter one at a time.
ghost use Rattle.std.specs.Prelude.{◌≡◌, ◌≤◌, Some, length, option_map};
ghost use Rattle.sv_core.specs.Histories.{party_of_entry};
ghost use Rattle.sv_rules.specs.Journal.{journal_of};
ghost use Rattle.sv_turn.specs.Journals.{entry_at};

use crate::Core;
use std::marker::Model;
use sv_events::Entry;
use sv_turn::History;

/// An entry as contracts see it. No value of it is made.
#[derive(Debug, Drop)]
pub struct EntrySeen {
    entry: Entry,
}

impl Model for EntrySeen {
    ghost use Rattle.sv_events.specs.Entry.{PlainEntry, plain_entry};

    ghost Value = { PlainEntry };

    ghost view = { λ e. plain_entry e.entry };
}

impl History for Core {
    type Entry = EntrySeen;

    ghost use Rattle.sv_core.specs.Histories.{entries_of, members_of, party_of_entry};

    ghost entries = { entries_of };

    ghost members_of = { members_of };

    ghost party_of = { party_of_entry };

    fn len(&self) -> u64 {
        self.log.entries().len() as u64
    }

    fn party_at(&self, place: u64) -> u32 {
        party_in(self.log.entries(), place)
    }
}

// The party of the entry at a place.
fn party_in(entries: &[Entry], place: u64) -> u32
    requires from { 1 ≤ place }
    requires to { place ≤ length entries.now }
    ensures { option_map party_of_entry (entry_at (journal_of entries.now) place) ≡ Some result }
{
    let entry = &entries[place as usize - 1];
    entry.party
}
