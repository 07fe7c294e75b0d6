ghost use Rattle.std.specs.Prelude.{◌≡◌, [], IfOk, string_bytes};
ghost use Rattle.std.specs.List.Sorted.{IsStrictlySortedBy};
ghost use Rattle.apl_arrays.specs.Name.{name_order};

use crate::fault::fault_of;
use crate::kind::has_folder;
use crate::listing::names_in;
use crate::paths::{name_text, path_in, user_path};
use crate::plain::{read_file, remove_file};
use crate::replacing::{make_folder, replace_file};
use apl_arrays::{Name, NameList};
use apl_io::{Bytes, Shelf, StoreError, WantOfMemory};
use std::io;
use std::rt::Files;

/// As many bytes as no saved workspace has: an object takes 67 of them at most for the 1 that it weighs by itself, and 8 at
/// most for each item, and all weigh 4,194,304 at most. Of a longer file no more is read.
const SAVED_LIMIT: u64 = 300_000_000;

/// A shelf in a folder, its place: what a user saved under a name is the file of that name in the user's folder there, which
/// is the user's number. A user's folder is made at the first write. Only plain files count; a folder or a link in the
/// place of one is left alone and not followed, and a call that comes upon it fails.
#[derive(Drop)]
pub struct DirShelf<R> {
    rt: R,
    place: String,
    mark: u32,
    faults: u64,
}

impl<R: Files + AllocGlobal + Clone + Drop> DirShelf<R> {
    /// A shelf without a place, which has not failed. The mark is a number that nobody else who writes in its place has, as
    /// that of the process.
    pub fn new(rt: R, mark: u32) -> Self
        ensures faults { result.faults ≡ 0 }
        ensures place { string_bytes result.place ≡ [] }
    {
        let place = String::new(rt.alloc());
        DirShelf {
            rt,
            place,
            mark,
            faults: 0,
        }
    }
}

impl<R: Files + AllocGlobal + Clone + Drop> Shelf for DirShelf<R> {
    ghost use Rattle.std.specs.Prelude.{None};

    ghost told = { λ _. None };

    ghost faults = { λ s. s.faults };

    fn faults(&self) -> u64 {
        self.faults
    }

    fn set_place(&mut self, place: &str) -> Result<(), WantOfMemory> {
        self.place = String::from_str(self.rt.alloc(), place)?;
        Ok(())
    }

    fn read(&mut self, user: u32, name: &Name) -> Result<Option<Bytes>, StoreError> {
        match read_saved(&self.rt, self.place.as_str(), user, name) {
            Ok(bytes) => Ok(bytes),
            Err(error) => Err(fault_of(&mut self.faults, error)),
        }
    }

    fn write(&mut self, user: u32, name: &Name, bytes: &[u8]) -> Result<(), StoreError> {
        match write_saved(&self.rt, self.place.as_str(), user, name, self.mark, bytes) {
            Ok(()) => Ok(()),
            Err(error) => Err(fault_of(&mut self.faults, error)),
        }
    }

    fn remove(&mut self, user: u32, name: &Name) -> Result<bool, StoreError> {
        match remove_saved(&self.rt, self.place.as_str(), user, name) {
            Ok(removed) => Ok(removed),
            Err(error) => Err(fault_of(&mut self.faults, error)),
        }
    }

    fn names(&mut self, user: u32) -> Result<NameList, StoreError> {
        match saved_names(&self.rt, self.place.as_str(), user) {
            Ok(names) => Ok(names),
            Err(error) => Err(fault_of(&mut self.faults, error)),
        }
    }
}

fn read_saved<R: Files + AllocGlobal>(
    rt: &R,
    place: &str,
    user: u32,
    name: &Name,
) -> io::Result<Option<Bytes>> {
    let folder = user_path(rt.alloc(), place, user)?;
    if !has_folder(rt, place, folder.as_str())? {
        return Ok(None);
    }
    let name = name_text(rt.alloc(), name)?;
    let path = path_in(rt.alloc(), folder.as_str(), name.as_str())?;
    read_file(rt, path.as_str(), SAVED_LIMIT)
}

fn write_saved<R: Files + AllocGlobal>(
    rt: &R,
    place: &str,
    user: u32,
    name: &Name,
    mark: u32,
    bytes: &[u8],
) -> io::Result<()> {
    let folder = user_path(rt.alloc(), place, user)?;
    let name = name_text(rt.alloc(), name)?;
    if !has_folder(rt, place, folder.as_str())? {
        make_folder(rt, place, folder.as_str())?;
    }
    replace_file(rt, folder.as_str(), name.as_str(), mark, bytes)
}

fn remove_saved<R: Files + AllocGlobal>(
    rt: &R,
    place: &str,
    user: u32,
    name: &Name,
) -> io::Result<bool> {
    let folder = user_path(rt.alloc(), place, user)?;
    if !has_folder(rt, place, folder.as_str())? {
        return Ok(false);
    }
    let name = name_text(rt.alloc(), name)?;
    let path = path_in(rt.alloc(), folder.as_str(), name.as_str())?;
    remove_file(rt, folder.as_str(), path.as_str())
}

fn saved_names<R: Files + AllocGlobal + Clone + Drop>(
    rt: &R,
    place: &str,
    user: u32,
) -> io::Result<NameList>
    ensures { IfOk result (λ names. IsStrictlySortedBy name_order names.items) }
{
    let folder = user_path(rt.alloc(), place, user)?;
    if has_folder(rt, place, folder.as_str())? {
        names_in(rt, folder.as_str())
    } else {
        Ok(NameList::new(rt.alloc()))
    }
}
