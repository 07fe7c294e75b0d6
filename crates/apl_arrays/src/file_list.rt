ghost use Rattle.std.specs.Prelude.{◌≡◌, ◌+◌, ◌<◌, ◌≤◌, ◌∷◌, [], ◌++◌, IsOk, OnOk, OnErr, map};
ghost use Rattle.apl_arrays.specs.FileList.{plain_file, IsAscending};

use crate::{Bytes, FileName, List, WantOfMemory};
use std::alloc::Global;
use std::marker::Model;

/// A text file: its name and its bytes.
#[derive(Debug, Drop)]
pub struct File {
    pub name: FileName,
    pub bytes: Bytes,
}

/// Files, their names ascending. It is seen as names and bytes, and the room that is left.
#[derive(Debug, Drop)]
pub struct FileList {
    files: List<File>,
}

impl Model for FileList {
    ghost use Rattle.std.specs.Prelude.{map};
    ghost use Rattle.apl_arrays.specs.List.{Listed};
    ghost use Rattle.apl_arrays.specs.FileList.{PlainFile, plain_file, IsAscending};

    ghost Value = { Listed PlainFile };

    ghost view = { λ l. record { items = map plain_file l.files.items; room = l.files.room } };

    ghost invariant = { λ l. IsAscending (map plain_file l.files.items) };
}

impl FileList {
    /// No files.
    pub fn new(alloc: Global) -> Self
        ensures { result.items ≡ [] }
    {
        FileList {
            files: List::new(alloc),
        }
    }

    /// The files, their names ascending.
    pub fn as_slice(&self) -> &[File]
        ensures value { map plain_file result.now ≡ self.now.items }
        ensures ascending { IsAscending self.now.items }
    {
        self.files.as_slice()
    }

    /// The files as a `Vec`.
    pub fn into_vec(self) -> Vec<File>
        ensures value { map plain_file result.items ≡ self.items }
        ensures ascending { IsAscending self.items }
    {
        self.files.into_vec()
    }

    /// Makes room for at least so many pushes, and takes memory for it. `WantOfMemory` leaves the list as it was.
    pub fn reserve(&mut self, room: usize) -> Result<(), WantOfMemory>
        ensures items { self.new.items ≡ self.old.items }
        ensures room { OnOk result (room ≤ self.new.room) }
        ensures kept { self.old.room ≤ self.new.room }
        ensures err { OnErr result (self.new ≡ self.old) }
        ensures granted { room ≤ self.old.room → IsOk result }
    {
        self.files.reserve(room)
    }

    /// Adds a file at the end, whose name has to come after the others. Where there is room it is granted and takes no
    /// memory, else it takes memory for more. `WantOfMemory` leaves the list as it was.
    pub fn push(&mut self, file: File) -> Result<(), WantOfMemory>
        requires { IsAscending (self.old.items ++ plain_file file ∷ []) }
        ensures ok { OnOk result (self.new.items ≡ self.old.items ++ plain_file file ∷ []) }
        ensures err { OnErr result (self.new ≡ self.old) }
        ensures granted { 0 < self.old.room → IsOk result }
        ensures room { 0 < self.old.room → self.new.room + 1 ≡ self.old.room }
    {
        self.files.push(file)
    }
}
