ghost use Rattle.std.specs.Prelude.{◌≡◌, ℕ, List, None, Some, IfOk, OnOk, OnErr, map, if◌then◌else◌};
ghost use Rattle.std.specs.BTreeMap.{is_at};
ghost use Rattle.std.specs.Map.{lookup, keys_of};
ghost use Rattle.std.specs.List.Sorted.{IsStrictlySortedBy};
ghost use Rattle.apl_io.specs.Content.{by_user_and_name, MayRemove};
ghost use Rattle.apl_io.specs.Kept.{kept_names_of, shelf_entry};
ghost use Rattle.apl_io.specs.Replies.{plain_bytes};

use crate::kept::{copy_bytes, copy_kept};
use crate::places::Places;
use crate::{Bytes, CallNumbers, Shelf, StoreError, WantOfMemory};
use apl_arrays::{Name, NameList};
use std::alloc::Global;
use std::collections::BTreeMap;
use std::marker::Model;

/// A shelf in memory. It fails at the calls that it is told to fail at. What was to be written or removed by a call
/// that failed reads as if there were none.
#[derive(Debug, Drop)]
pub struct MemoryShelf {
    alloc: Global,
    places: Places,
    kept: BTreeMap<(u32, Name), Option<Bytes>>,
    calls: u64,
    fails: CallNumbers,
    faults: u64,
}

impl Model for MemoryShelf {
    ghost use Rattle.std.specs.Prelude.{ℕ, List, map};
    ghost use Rattle.apl_io.specs.Kept.{Keeper, shelf_entry};

    ghost Value = { Keeper (ℕ × List ℕ) };

    ghost view = { λ s. record { told = record { places = s.places; entries = map shelf_entry s.kept.entries; calls = s.calls; fails = s.fails.items }; faults = s.faults } };
}

impl MemoryShelf {
    ghost use Rattle.std.specs.Prelude.{[]};
    ghost use Rattle.apl_io.specs.Kept.{new_keeper};

    /// An empty shelf, given no place. `fails` has the numbers of the calls that are to fail: the first call is 1, and
    /// past the greatest `u64` numbers go no further.
    pub fn new(alloc: Global, fails: CallNumbers) -> Self
        ensures { result ≡ new_keeper [] fails.items }
    {
        MemoryShelf {
            alloc,
            places: Places::new(alloc),
            kept: BTreeMap::new(alloc),
            calls: 0,
            fails,
            faults: 0,
        }
    }
}

impl Shelf for MemoryShelf {
    ghost use Rattle.std.specs.Prelude.{Some};

    ghost told = { λ s. Some s.told };

    ghost faults = { λ s. s.faults };

    fn faults(&self) -> u64 {
        self.faults
    }

    fn set_place(&mut self, place: &str) -> Result<(), WantOfMemory> {
        self.places.add(self.alloc, place)
    }

    fn read(&mut self, user: u32, name: &Name) -> Result<Option<Bytes>, StoreError> {
        if self.fails.counts(&mut self.calls) {
            self.faults = self.faults.saturating_add(1);
            return Err(StoreError::Failed);
        }
        Ok(copy_kept(self.alloc, self.kept.get(&(user, *name)))?)
    }

    fn write(&mut self, user: u32, name: &Name, bytes: &[u8]) -> Result<(), StoreError> {
        if self.fails.counts(&mut self.calls) {
            put(&mut self.kept, (user, *name), None)?;
            self.faults = self.faults.saturating_add(1);
            return Err(StoreError::Failed);
        }
        let bytes = copy_bytes(self.alloc, bytes)?;
        Ok(put(&mut self.kept, (user, *name), Some(bytes))?)
    }

    fn remove(&mut self, user: u32, name: &Name) -> Result<bool, StoreError> {
        if self.fails.counts(&mut self.calls) {
            put(&mut self.kept, (user, *name), None)?;
            self.faults = self.faults.saturating_add(1);
            return Err(StoreError::Failed);
        }
        Ok(take(&mut self.kept, (user, *name)))
    }

    fn names(&mut self, user: u32) -> Result<NameList, StoreError> {
        if self.fails.counts(&mut self.calls) {
            self.faults = self.faults.saturating_add(1);
            return Err(StoreError::Failed);
        }
        Ok(names_of(self.alloc, &self.kept, user)?)
    }
}

// The names of a user's entries whose bytes are there, ascending.
fn names_of(
    alloc: Global,
    kept: &BTreeMap<(u32, Name), Option<Bytes>>,
    user: u32,
) -> Result<NameList, WantOfMemory>
    ensures names { IfOk result (λ names. names.items ≡ kept_names_of user kept.now.entries) }
    ensures ascending { OnOk result (IsStrictlySortedBy by_user_and_name (keys_of kept.now.entries)) }
{
    let mut names = NameList::new(alloc);
    for (key, bytes) in kept {
        if user == key.0 && bytes.is_some() {
            names.push(key.1)?;
        }
    }
    Ok(names)
}

// Keeps this under a key, in the place of what was there.
fn put(
    kept: &mut BTreeMap<(u32, Name), Option<Bytes>>,
    key: (u32, Name),
    bytes: Option<Bytes>,
) -> Result<(), WantOfMemory>
    ensures ok { OnOk result ((other : ℕ × List ℕ) → lookup (is_at (by_user_and_name other)) (map shelf_entry kept.new.entries)
        ≡ (if is_at (by_user_and_name key) other then Some (plain_bytes bytes) else lookup (is_at (by_user_and_name other)) (map shelf_entry kept.old.entries))) }
    ensures err { OnErr result (kept.new.entries ≡ kept.old.entries) }
{
    kept.insert(key, bytes)?;
    Ok(())
}

// Takes away what is kept under a key, and says whether there were bytes.
fn take(kept: &mut BTreeMap<(u32, Name), Option<Bytes>>, key: (u32, Name)) -> bool
    ensures answered { MayRemove (lookup (is_at (by_user_and_name key)) (map shelf_entry kept.old.entries)) result }
    ensures entries { (other : ℕ × List ℕ) → lookup (is_at (by_user_and_name other)) (map shelf_entry kept.new.entries)
        ≡ (if is_at (by_user_and_name key) other then None else lookup (is_at (by_user_and_name other)) (map shelf_entry kept.old.entries)) }
{
    match kept.remove(&key) {
        Some(bytes) => bytes.is_some(),
        None => false,
    }
}
