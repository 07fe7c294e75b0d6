use crate::devices::{done_text, failure_text, read_text};
use crate::sessions::BETWEEN;
use anyhow::{Context, Result, bail};
use apl_arrays::Name;
use apl_io::{MemoryShelf, Shelf};
use case_devices::calls_of;
use case_fields::{name_of, names_text};
use case_tables::{Trial, bytes_of};
use std::alloc::Global;

/// Scripts of a shelf in memory: the calls that are to fail, and the steps; what they give.
#[derive(Clone, Copy, Debug)]
pub struct Shelves;

// A user and a name.
fn entry_of(alloc: Global, text: &str) -> Result<(u32, Name)> {
    let (user, name) = text.split_once(" ").context("no name")?;
    Ok((user.parse()?, name_of(alloc, name)?))
}

fn read<K: Shelf>(alloc: Global, shelf: &mut K, rest: &str) -> Result<String> {
    let (user, name) = entry_of(alloc, rest)?;
    read_text(alloc, shelf.read(user, &name))
}

fn write<K: Shelf>(alloc: Global, shelf: &mut K, rest: &str) -> Result<String> {
    let (entry, text) = rest.rsplit_once(" ").context("no bytes")?;
    let (user, name) = entry_of(alloc, entry)?;
    let bytes = bytes_of(alloc, text)?;
    done_text(alloc, shelf.write(user, &name, &bytes))
}

fn remove<K: Shelf>(alloc: Global, shelf: &mut K, rest: &str) -> Result<String> {
    let (user, name) = entry_of(alloc, rest)?;
    match shelf.remove(user, &name) {
        Ok(removed) => Ok(removed.to_string(alloc)?),
        Err(error) => failure_text(alloc, error),
    }
}

fn names<K: Shelf>(alloc: Global, shelf: &mut K, rest: &str) -> Result<String> {
    match shelf.names(rest.parse()?) {
        Ok(names) => names_text(alloc, names.as_slice()),
        Err(error) => failure_text(alloc, error),
    }
}

/// What a step of a shelf gives: `place PLACE`, `read USER NAME`, `write USER NAME BYTES`, `remove USER NAME`, `names USER`,
/// or `faults`.
pub fn shelf_step<K: Shelf>(alloc: Global, shelf: &mut K, text: &str) -> Result<String> {
    let (word, rest) = text.split_once(" ").unwrap_or((text, ""));
    match word {
        "place" => {
            shelf.set_place(rest)?;
            Ok(String::from_str(alloc, "ok")?)
        }
        "read" => read(alloc, shelf, rest),
        "write" => write(alloc, shelf, rest),
        "remove" => remove(alloc, shelf, rest),
        "names" => names(alloc, shelf, rest),
        "faults" => Ok(shelf.faults().to_string(alloc)?),
        _ => bail!("no step: {text}"),
    }
}

// What steps give, one after another.
fn steps_text(alloc: Global, shelf: &mut MemoryShelf, steps: &str) -> Result<String> {
    let mut text = String::new(alloc);
    for (at, part) in steps.split(BETWEEN).enumerate() {
        if at > 0 {
            text.push_str(BETWEEN)?;
        }
        text.push_str(shelf_step(alloc, shelf, part)?.as_str())?;
    }
    Ok(text)
}

impl Trial for Shelves {
    fn given(&self) -> usize {
        2
    }

    fn found(&self, alloc: Global, fields: &[&str]) -> Result<String> {
        let [fails, steps, ..] = fields else {
            bail!("calls and steps are wanted");
        };
        let mut shelf = MemoryShelf::new(alloc, calls_of(alloc, *fails)?);
        let told = steps_text(alloc, &mut shelf, *steps);
        drop(shelf);
        told
    }
}
