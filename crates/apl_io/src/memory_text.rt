ghost use Rattle.std.specs.Prelude.{◌≡◌, ◌++◌, ℕ, List, Some, IfOk, OnOk, OnErr, map, option_copied, if◌then◌else◌};
ghost use Rattle.std.specs.List.{find};
ghost use Rattle.std.specs.Str.{bytes_eq};
ghost use Rattle.std.specs.BTreeMap.{is_at};
ghost use Rattle.std.specs.Map.{lookup};
ghost use Rattle.apl_arrays.specs.Name.{name_order};
ghost use Rattle.apl_io.specs.Content.{MayRead};
ghost use Rattle.apl_io.specs.Kept.{file_entry, text_entry};
ghost use Rattle.apl_io.specs.Replies.{plain_bytes};

use crate::kept::{copy_bytes, copy_kept};
use crate::places::Places;
use crate::{Bytes, CallNumbers, StoreError, TextStore, WantOfMemory};
use apl_arrays::{File, FileList};
use std::alloc::Global;
use std::collections::BTreeMap;
use std::marker::Model;

/// A text store in memory: the files that it was given, and what was written over them. It fails at the calls that it
/// is told to fail at. A file whose replacement failed reads as if there were none.
#[derive(Debug, Drop)]
pub struct MemoryText {
    alloc: Global,
    places: Places,
    given: FileList,
    written: BTreeMap<String, Option<Bytes>>,
    calls: u64,
    fails: CallNumbers,
    faults: u64,
}

impl Model for MemoryText {
    ghost use Rattle.std.specs.Prelude.{◌++◌, ℕ, List, map};
    ghost use Rattle.apl_io.specs.Kept.{Keeper, file_entry, text_entry};

    ghost Value = { Keeper (List ℕ) };

    ghost view = { λ t. record { told = record { places = t.places; entries = map text_entry t.written.entries ++ map file_entry t.given.items; calls = t.calls; fails = t.fails.items }; faults = t.faults } };
}

impl MemoryText {
    ghost use Rattle.apl_io.specs.Kept.{new_keeper};

    /// A store of these files, given no place. `fails` has the numbers of the calls that are to fail: the first call is
    /// 1, and past the greatest `u64` numbers go no further.
    pub fn new(alloc: Global, files: FileList, fails: CallNumbers) -> Self
        ensures { result ≡ new_keeper (map file_entry files.items) fails.items }
    {
        MemoryText {
            alloc,
            places: Places::new(alloc),
            given: files,
            written: BTreeMap::new(alloc),
            calls: 0,
            fails,
            faults: 0,
        }
    }
}

impl TextStore for MemoryText {
    ghost use Rattle.std.specs.Prelude.{Some};

    ghost told = { λ t. Some t.told };

    ghost faults = { λ t. t.faults };

    fn faults(&self) -> u64 {
        self.faults
    }

    fn set_place(&mut self, place: &str) -> Result<(), WantOfMemory> {
        self.places.add(self.alloc, place)
    }

    fn read(&mut self, name: &str) -> Result<Option<Bytes>, StoreError> {
        if self.fails.counts(&mut self.calls) {
            self.faults = self.faults.saturating_add(1);
            return Err(StoreError::Failed);
        }
        Ok(copy_latest(self.alloc, &self.written, &self.given, name)?)
    }

    fn replace(&mut self, name: &str, bytes: &[u8]) -> Result<(), StoreError> {
        if self.fails.counts(&mut self.calls) {
            put(self.alloc, &mut self.written, name, None)?;
            self.faults = self.faults.saturating_add(1);
            return Err(StoreError::Failed);
        }
        let bytes = copy_bytes(self.alloc, bytes)?;
        Ok(put(self.alloc, &mut self.written, name, Some(bytes))?)
    }
}

// The bytes of this name again: those that were written last, or else those of the file that was given.
fn copy_latest(
    alloc: Global,
    written: &BTreeMap<String, Option<Bytes>>,
    given: &FileList,
    name: &str,
) -> Result<Option<Bytes>, WantOfMemory>
    ensures { IfOk result (λ copy. MayRead (lookup (is_at (name_order name.now)) (map text_entry written.now.entries ++ map file_entry given.now.items)) (plain_bytes copy)) }
{
    let kept = written.get(name);
    if kept.is_some() {
        copy_kept(alloc, kept)
    } else {
        copy_given(alloc, given, name)
    }
}

// The bytes of the file of this name again, or `None` where there is none.
fn copy_given(alloc: Global, files: &FileList, name: &str) -> Result<Option<Bytes>, WantOfMemory>
    ensures { IfOk result (λ copy. MayRead (lookup (is_at (name_order name.now)) (map file_entry files.now.items)) (plain_bytes copy)) }
{
    match file_of(files.as_slice(), name) {
        Some(file) => Ok(Some(file.bytes.copy(alloc)?)),
        None => Ok(None),
    }
}

// The first file of this name.
fn file_of<'a>(files: &'a [File], name: &str) -> Option<&'a File>
    ensures { option_copied result ≡ find (λ file. bytes_eq name.now file.name) files.now }
{
    files
        .iter()
        .find(|file| name.as_bytes() == file.name.as_bytes())
}

// Keeps this under a name, in the place of what was there.
fn put(
    alloc: Global,
    written: &mut BTreeMap<String, Option<Bytes>>,
    name: &str,
    kept: Option<Bytes>,
) -> Result<(), WantOfMemory>
    ensures ok { OnOk result ((other : List ℕ) → lookup (is_at (name_order other)) (map text_entry written.new.entries)
        ≡ (if is_at (name_order name.now) other then Some (plain_bytes kept) else lookup (is_at (name_order other)) (map text_entry written.old.entries))) }
    ensures err { OnErr result (written.new.entries ≡ written.old.entries) }
{
    let key = String::from_str(alloc, name)?;
    written.insert(key, kept)?;
    Ok(())
}
