use crate::bytes::bytes_of;
use anyhow::{Context, Result, bail};
use apl_arrays::{Bytes, Name};
use apl_io::{MemoryShelf, Shelf, StoreError};
use case_fields::{name_of, names_text};
use case_workspaces::natural_of;
use std::alloc::Global;

// That a call failed.
fn failure_text(alloc: Global, error: StoreError) -> Result<String> {
    match error {
        StoreError::Failed => Ok(String::from_str(alloc, "failed")?),
        StoreError::WantOfMemory => bail!("out of memory"),
    }
}

// Bytes as hexadecimal digits, or that there are none.
fn kept_text(alloc: Global, bytes: Option<&Bytes>) -> Result<String> {
    match bytes {
        None => Ok(String::from_str(alloc, "none")?),
        Some(bytes) => Ok(hex::encode_upper(alloc, bytes.as_slice())?),
    }
}

// What a call gave that reads bytes.
fn read_text(alloc: Global, outcome: Result<Option<Bytes>, StoreError>) -> Result<String> {
    match outcome {
        Ok(bytes) => {
            let text = kept_text(alloc, bytes.as_ref());
            drop(bytes);
            text
        }
        Err(error) => failure_text(alloc, error),
    }
}

// What a call gave that tells nothing more.
fn done_text(alloc: Global, outcome: Result<(), StoreError>) -> Result<String> {
    match outcome {
        Ok(()) => Ok(String::from_str(alloc, "ok")?),
        Err(error) => failure_text(alloc, error),
    }
}

// A user and a name.
fn entry_of(alloc: Global, user: &str, name: &str) -> Result<(u32, Name)> {
    Ok((natural_of(user)?, name_of(alloc, name)?))
}

fn read(alloc: Global, shelf: &mut MemoryShelf, rest: &str) -> Result<String> {
    let (user, name) = rest.split_once(" ").context("no name")?;
    let (user, name) = entry_of(alloc, user, name)?;
    read_text(alloc, shelf.read(user, &name))
}

fn write(alloc: Global, shelf: &mut MemoryShelf, rest: &str) -> Result<String> {
    let (user, rest) = rest.split_once(" ").context("no name")?;
    let (name, pieces) = rest.split_once(" ").context("no bytes")?;
    let (user, name) = entry_of(alloc, user, name)?;
    let bytes = bytes_of(alloc, pieces)?;
    done_text(alloc, shelf.write(user, &name, &bytes))
}

fn remove(alloc: Global, shelf: &mut MemoryShelf, rest: &str) -> Result<String> {
    let (user, name) = rest.split_once(" ").context("no name")?;
    let (user, name) = entry_of(alloc, user, name)?;
    match shelf.remove(user, &name) {
        Ok(removed) => Ok(removed.to_string(alloc)?),
        Err(error) => failure_text(alloc, error),
    }
}

fn names(alloc: Global, shelf: &mut MemoryShelf, rest: &str) -> Result<String> {
    match shelf.names(natural_of(rest)?) {
        Ok(names) => names_text(alloc, names.as_slice()),
        Err(error) => failure_text(alloc, error),
    }
}

/// What a step on a shelf gives: `read USER NAME`, `write USER NAME BYTES`, `remove USER NAME`, `names USER`, or `faults`.
/// `None` where the word is none of these.
pub fn shelf_step(
    alloc: Global,
    shelf: &mut MemoryShelf,
    word: &str,
    rest: &str,
) -> Result<Option<String>> {
    let told = match word {
        "read" => read(alloc, shelf, rest)?,
        "write" => write(alloc, shelf, rest)?,
        "remove" => remove(alloc, shelf, rest)?,
        "names" => names(alloc, shelf, rest)?,
        "faults" => shelf.faults().to_string(alloc)?,
        _ => return Ok(None),
    };
    Ok(Some(told))
}
