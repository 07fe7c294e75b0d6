use crate::kind::want_plain;
use crate::paths::{hidden_path, path_in};
use std::fs::{self, File, OpenFile};
use std::io::{self, ErrorKind, Write};
use std::rt::Files;

/// Puts bytes in the place of the plain file of a name in a folder, or makes the file. They are written to a hidden file,
/// which is synced and then moved over the other. So whenever it ends, the name has the bytes from before or the new ones,
/// all of them. The mark is one that nobody else who writes there has. An error where something else stands there. It takes
/// memory for the paths.
pub fn replace_file<R: Files + AllocGlobal>(
    rt: &R,
    folder: &str,
    name: &str,
    mark: u32,
    bytes: &[u8],
) -> io::Result<()> {
    let path = path_in(rt.alloc(), folder, name)?;
    want_plain(rt, path.as_str())?;
    let hidden = hidden_path(rt.alloc(), folder, name, mark)?;
    write_over(rt, hidden.as_str(), path.as_str(), bytes)?;
    sync_folder(rt, folder)
}

// Writes a hidden file, and moves it over another. Where that fails it is taken away again.
fn write_over<R: Files>(rt: &R, hidden: &str, path: &str, bytes: &[u8]) -> io::Result<()> {
    let outcome = write_and_move(rt, hidden, path, bytes);
    if outcome.is_err() {
        // One that stays is read by nobody, and the next to write with its mark takes it away.
        let _ = fs::remove_file(rt, hidden);
    }
    outcome
}

fn write_and_move<R: Files>(rt: &R, hidden: &str, path: &str, bytes: &[u8]) -> io::Result<()> {
    write_new(rt, hidden, bytes)?;
    fs::rename(rt, hidden, path)
}

// Writes a file that was not there, so that its bytes outlast a loss of power.
fn write_new<R: Files>(rt: &R, path: &str, bytes: &[u8]) -> io::Result<()> {
    let mut file = make_new(rt, path)?;
    file.write_all(bytes)?;
    file.sync_all()
}

// Makes a file. What stands there was left by one with the same mark that was ended.
fn make_new<R: Files>(rt: &R, path: &str) -> io::Result<R::File> {
    match File::create_new(rt, path) {
        Ok(file) => Ok(file),
        Err(error) if error.kind() == ErrorKind::AlreadyExists => make_again(rt, path),
        Err(error) => Err(error),
    }
}

fn make_again<R: Files>(rt: &R, path: &str) -> io::Result<R::File> {
    fs::remove_file(rt, path)?;
    File::create_new(rt, path)
}

/// Makes a folder in a place, so that it outlasts a loss of power. It takes no memory.
pub fn make_folder(files: &impl Files, place: &str, path: &str) -> io::Result<()> {
    fs::create_dir(files, path)?;
    sync_folder(files, place)
}

/// Waits until what was made, moved and taken away in a folder would outlast a loss of power. It takes no memory.
pub fn sync_folder(files: &impl Files, path: &str) -> io::Result<()> {
    let folder = File::open(files, path)?;
    folder.sync_all()
}
