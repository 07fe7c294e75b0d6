ghost use Rattle.std.specs.Prelude.{◌≡◌, ◌+◌, ◌<◌, ◌≤◌, ◌∷◌, [], ◌++◌, IsOk, OnOk, OnErr, map};
ghost use Rattle.sv_events.specs.Entry.{plain_entry};

use crate::Entry;
use apl_arrays::{List, WantOfMemory};
use std::alloc::Global;
use std::marker::Model;

/// The entries in the order in which they were made, seen as plain data and the room that is left.
#[derive(Debug, Drop)]
pub struct Journal {
    entries: List<Entry>,
}

impl Model for Journal {
    ghost use Rattle.std.specs.Prelude.{map};
    ghost use Rattle.apl_arrays.specs.List.{Listed};
    ghost use Rattle.sv_events.specs.Entry.{PlainEntry, plain_entry};

    ghost Value = { Listed PlainEntry };

    ghost view = { λ j. record { items = map plain_entry j.entries.items; room = j.entries.room } };
}

impl Journal {
    /// No entries.
    pub fn new(alloc: Global) -> Self
        ensures { result.items ≡ [] }
    {
        Journal {
            entries: List::new(alloc),
        }
    }

    /// The entries, oldest first.
    pub fn as_slice(&self) -> &[Entry]
        ensures { map plain_entry result.now ≡ self.now.items }
    {
        self.entries.as_slice()
    }

    /// The entries as a `Vec`.
    pub fn into_vec(self) -> Vec<Entry>
        ensures { map plain_entry result.items ≡ self.items }
    {
        self.entries.into_vec()
    }

    /// Makes room for at least so many pushes, and takes memory for it. `WantOfMemory` leaves the journal as it was.
    pub fn reserve(&mut self, room: usize) -> Result<(), WantOfMemory>
        ensures items { self.new.items ≡ self.old.items }
        ensures room { OnOk result (room ≤ self.new.room) }
        ensures kept { self.old.room ≤ self.new.room }
        ensures err { OnErr result (self.new ≡ self.old) }
        ensures granted { room ≤ self.old.room → IsOk result }
    {
        self.entries.reserve(room)
    }

    /// Adds an entry at the end. Where there is room it is granted and takes no memory, else it takes memory for more.
    /// `WantOfMemory` leaves the journal as it was.
    pub fn push(&mut self, entry: Entry) -> Result<(), WantOfMemory>
        ensures ok { OnOk result (self.new.items ≡ self.old.items ++ plain_entry entry ∷ []) }
        ensures err { OnErr result (self.new ≡ self.old) }
        ensures granted { 0 < self.old.room → IsOk result }
        ensures room { 0 < self.old.room → self.new.room + 1 ≡ self.old.room }
    {
        self.entries.push(entry)
    }

    /// Adds an entry at the end, where there is room.
    pub fn push_reserved(&mut self, entry: Entry)
        requires { 0 < self.old.room }
        ensures items { self.new.items ≡ self.old.items ++ plain_entry entry ∷ [] }
        ensures room { self.new.room + 1 ≡ self.old.room }
    {
        self.entries.push_reserved(entry);
    }
}
