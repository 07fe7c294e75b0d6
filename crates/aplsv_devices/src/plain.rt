use crate::fault::other_kind;
use crate::kind::{FileId, PathKind, kind_at, kind_of};
use crate::replacing::sync_folder;
use apl_io::Bytes;
use std::alloc::Global;
use std::fs::{self, File, OpenFile};
use std::io::{self, Read};
use std::rt::Files;

/// The bytes of the plain file under a path, so many of them at most, or `None` where nothing stands there. An error where
/// something else does, as a folder or a link. It takes memory for the bytes.
pub fn read_file<R: Files + AllocGlobal>(
    rt: &R,
    path: &str,
    most: u64,
) -> io::Result<Option<Bytes>> {
    match kind_at(rt, path)? {
        PathKind::Missing => Ok(None),
        PathKind::Plain(id) => Ok(Some(read_plain(rt, path, id, most)?)),
        PathKind::Folder | PathKind::Other => Err(other_kind()),
    }
}

// The bytes of the file that was seen under a path. An error where another one is opened there.
fn read_plain<R: Files + AllocGlobal>(
    rt: &R,
    path: &str,
    id: FileId,
    most: u64,
) -> io::Result<Bytes> {
    let file = File::open(rt, path)?;
    let opened = kind_of(&file.metadata()?);
    if opened != PathKind::Plain(id) {
        return Err(other_kind());
    }
    front_of(rt.alloc(), file, most)
}

// The bytes that a reader gives, so many of them at most.
fn front_of<F: Read + Drop>(alloc: Global, file: F, most: u64) -> io::Result<Bytes> {
    let mut bytes = Vec::new(alloc);
    let mut front = file.take(most);
    front.read_to_end(&mut bytes)?;
    Ok(Bytes::from(bytes))
}

/// Takes the plain file under a path of a folder away, for good, and says whether there was one. An error where something
/// else stands there. It takes no memory.
pub fn remove_file(files: &impl Files, folder: &str, path: &str) -> io::Result<bool> {
    match kind_at(files, path)? {
        PathKind::Missing => Ok(false),
        PathKind::Plain(_) => {
            fs::remove_file(files, path)?;
            sync_folder(files, folder)?;
            Ok(true)
        }
        PathKind::Folder | PathKind::Other => Err(other_kind()),
    }
}
