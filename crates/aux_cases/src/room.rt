use anyhow::{Context, Result};
use case_tables::bytes_of;
use std::alloc::{AllocError, Global};
use std::io::ErrorKind;
use std::os::unix::fs::symlink;
use std::{fs, str};

// The path of what stands in a room.
fn path_in(alloc: Global, room: &str, name: &str) -> Result<String, AllocError> {
    format!(in alloc; "{room}/{name}")
}

/// Makes a folder that has nothing in it, in the place of what was left there.
pub fn make_room(rt: &HostRuntime, room: &str) -> Result<()> {
    match fs::remove_dir_all(rt, room) {
        Ok(()) => {}
        Err(error) if error.kind() == ErrorKind::NotFound => {}
        Err(error) => return Err(error.into()),
    }
    fs::create_dir(rt, room)?;
    Ok(())
}

// The name and the rest of a step.
fn parts(rest: &str) -> Result<(&str, &str)> {
    rest.split_once(" ").context("no second word")
}

fn make_file(rt: &HostRuntime, room: &str, rest: &str) -> Result<String> {
    let (name, text) = parts(rest)?;
    let path = path_in(rt.alloc(), room, name)?;
    let bytes = bytes_of(rt.alloc(), text)?;
    fs::write(rt, path.as_str(), bytes.as_slice())?;
    Ok(String::from_str(rt.alloc(), "made")?)
}

fn make_folder(rt: &HostRuntime, room: &str, name: &str) -> Result<String> {
    let path = path_in(rt.alloc(), room, name)?;
    fs::create_dir_all(rt, path.as_str())?;
    Ok(String::from_str(rt.alloc(), "made")?)
}

fn make_link(rt: &HostRuntime, room: &str, rest: &str) -> Result<String> {
    let (name, target) = parts(rest)?;
    let path = path_in(rt.alloc(), room, name)?;
    symlink(rt, target, path.as_str())?;
    Ok(String::from_str(rt.alloc(), "made")?)
}

// The bytes of a file, between quotes.
fn file_text(rt: &HostRuntime, room: &str, name: &str) -> Result<String> {
    let path = path_in(rt.alloc(), room, name)?;
    let text = fs::read_to_string(rt, path.as_str())?;
    let text = text.as_str();
    Ok(format!(in rt.alloc(); "'{text}'")?)
}

// How many entries a folder has.
fn entry_count(rt: &HostRuntime, room: &str, name: &str) -> Result<String> {
    let path = path_in(rt.alloc(), room, name)?;
    let mut count = 0_u64;
    for entry in fs::read_dir(rt, path.as_str())? {
        drop(entry?);
        count = count.saturating_add(1);
    }
    Ok(count.to_string(rt.alloc())?)
}

/// What a step in a room gives: `file NAME BYTES`, `folder NAME` and `link NAME PATH` make one, `bytes NAME` gives those of a
/// file, and `count NAME` how many entries a folder has. `None` where it is none of these.
pub fn room_step(rt: &HostRuntime, room: &str, text: &str) -> Result<Option<String>> {
    let (word, rest) = text.split_once(" ").unwrap_or((text, ""));
    match word {
        "file" => Ok(Some(make_file(rt, room, rest)?)),
        "folder" => Ok(Some(make_folder(rt, room, rest)?)),
        "link" => Ok(Some(make_link(rt, room, rest)?)),
        "bytes" => Ok(Some(file_text(rt, room, rest)?)),
        "count" => Ok(Some(entry_count(rt, room, rest)?)),
        _ => Ok(None),
    }
}
