use crate::fault::other_kind;
use std::fs::{self, Metadata};
use std::io::{self, ErrorKind};
use std::os::unix::fs::MetadataExt;
use std::rt::Files;

/// Which file of the machine one is: the number of its device, and its own there.
#[derive(Clone, Copy, Debug, PartialEq, Eq)]
pub struct FileId {
    device: u64,
    file: u64,
}

/// What stands under a path.
#[derive(Clone, Copy, Debug, PartialEq, Eq)]
pub enum PathKind {
    /// Nothing.
    Missing,
    /// A plain file.
    Plain(FileId),
    /// A folder.
    Folder,
    /// A link, or something else, that is left alone.
    Other,
}

/// What the system says that something is.
pub fn kind_of(metadata: &Metadata) -> PathKind {
    if metadata.is_file() {
        PathKind::Plain(FileId {
            device: metadata.dev(),
            file: metadata.ino(),
        })
    } else if metadata.is_dir() {
        PathKind::Folder
    } else {
        PathKind::Other
    }
}

/// What stands under a path. A link at its end is not followed. It takes no memory.
pub fn kind_at(files: &impl Files, path: &str) -> io::Result<PathKind> {
    match fs::symlink_metadata(files, path) {
        Ok(metadata) => Ok(kind_of(&metadata)),
        Err(error) if error.kind() == ErrorKind::NotFound => Ok(PathKind::Missing),
        Err(error) => Err(error),
    }
}

/// An error unless the place of a store is a folder, or a link to one. It takes no memory.
pub fn want_place(files: &impl Files, place: &str) -> io::Result<()> {
    if fs::metadata(files, place)?.is_dir() {
        Ok(())
    } else {
        Err(other_kind())
    }
}

/// Whether a folder stands under a path in a place. An error where something else does, or where the place is none. It
/// takes no memory.
pub fn has_folder(files: &impl Files, place: &str, path: &str) -> io::Result<bool> {
    match kind_at(files, path)? {
        PathKind::Folder => Ok(true),
        PathKind::Missing => {
            want_place(files, place)?;
            Ok(false)
        }
        PathKind::Plain(_) | PathKind::Other => Err(other_kind()),
    }
}

/// An error unless a plain file stands under a path, or nothing. It takes no memory.
pub fn want_plain(files: &impl Files, path: &str) -> io::Result<()> {
    match kind_at(files, path)? {
        PathKind::Missing | PathKind::Plain(_) => Ok(()),
        PathKind::Folder | PathKind::Other => Err(other_kind()),
    }
}
