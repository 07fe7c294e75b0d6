ghost use Rattle.std.specs.Prelude.{◌≡◌, [], string_bytes};

use crate::fault::fault_of;
use crate::kind::want_place;
use crate::paths::text_path;
use crate::plain::read_file;
use crate::replacing::replace_file;
use apl_io::{Bytes, StoreError, TextStore, WantOfMemory};
use std::io;
use std::rt::Files;

/// One byte more than a text file may have. Of a longer file no more is read.
const TEXT_LIMIT: u64 = 4_194_305;

/// A text store in a folder, its place: a file is the plain file of its name there. A folder or a link in the place of one is
/// left alone and not followed, and a call that comes upon it fails, as does one for a name that is that of no file.
#[derive(Drop)]
pub struct DirText<R> {
    rt: R,
    place: String,
    mark: u32,
    faults: u64,
}

impl<R: Files + AllocGlobal> DirText<R> {
    /// A store without a place, which has not failed. The mark is a number that nobody else who writes in its place has, as
    /// that of the process.
    pub fn new(rt: R, mark: u32) -> Self
        ensures faults { result.faults ≡ 0 }
        ensures place { string_bytes result.place ≡ [] }
    {
        let place = String::new(rt.alloc());
        DirText {
            rt,
            place,
            mark,
            faults: 0,
        }
    }
}

impl<R: Files + AllocGlobal> TextStore for DirText<R> {
    ghost use Rattle.std.specs.Prelude.{None};

    ghost told = { λ _. None };

    ghost faults = { λ t. t.faults };

    fn faults(&self) -> u64 {
        self.faults
    }

    fn set_place(&mut self, place: &str) -> Result<(), WantOfMemory> {
        self.place = String::from_str(self.rt.alloc(), place)?;
        Ok(())
    }

    fn read(&mut self, name: &str) -> Result<Option<Bytes>, StoreError> {
        match read_text(&self.rt, self.place.as_str(), name) {
            Ok(bytes) => Ok(bytes),
            Err(error) => Err(fault_of(&mut self.faults, error)),
        }
    }

    fn replace(&mut self, name: &str, bytes: &[u8]) -> Result<(), StoreError> {
        match replace_text(&self.rt, self.place.as_str(), name, self.mark, bytes) {
            Ok(()) => Ok(()),
            Err(error) => Err(fault_of(&mut self.faults, error)),
        }
    }
}

// The bytes of a file. Where there is none, the place has to be there all the same.
fn read_text<R: Files + AllocGlobal>(rt: &R, place: &str, name: &str) -> io::Result<Option<Bytes>> {
    let path = text_path(rt.alloc(), place, name)?;
    match read_file(rt, path.as_str(), TEXT_LIMIT)? {
        Some(bytes) => Ok(Some(bytes)),
        None => {
            want_place(rt, place)?;
            Ok(None)
        }
    }
}

fn replace_text<R: Files + AllocGlobal>(
    rt: &R,
    place: &str,
    name: &str,
    mark: u32,
    bytes: &[u8],
) -> io::Result<()> {
    text_path(rt.alloc(), place, name)?;
    replace_file(rt, place, name, mark, bytes)
}
