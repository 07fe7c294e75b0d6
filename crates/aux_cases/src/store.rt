use crate::devices::{done_text, read_text};
use crate::sessions::BETWEEN;
use anyhow::{Context, Result, bail};
use apl_io::{MemoryText, TextStore};
use case_devices::store_of;
use case_tables::{Trial, bytes_of};
use std::alloc::Global;

/// Scripts of a text store in memory: a file that it has, the calls that are to fail, and the steps; what they give.
#[derive(Clone, Copy, Debug)]
pub struct Stores;

fn replace<T: TextStore>(alloc: Global, store: &mut T, rest: &str) -> Result<String> {
    let (name, text) = rest.split_once(" ").context("no bytes")?;
    let bytes = bytes_of(alloc, text)?;
    done_text(alloc, store.replace(name, &bytes))
}

/// What a step of a text store gives: `place PLACE`, `read NAME`, `replace NAME BYTES`, or `faults`.
pub fn store_step<T: TextStore>(alloc: Global, store: &mut T, text: &str) -> Result<String> {
    let (word, rest) = text.split_once(" ").unwrap_or((text, ""));
    match word {
        "place" => {
            store.set_place(rest)?;
            Ok(String::from_str(alloc, "ok")?)
        }
        "read" => read_text(alloc, store.read(rest)),
        "replace" => replace(alloc, store, rest),
        "faults" => Ok(store.faults().to_string(alloc)?),
        _ => bail!("no step: {text}"),
    }
}

// What steps give, one after another.
fn steps_text(alloc: Global, store: &mut MemoryText, steps: &str) -> Result<String> {
    let mut text = String::new(alloc);
    for (at, part) in steps.split(BETWEEN).enumerate() {
        if at > 0 {
            text.push_str(BETWEEN)?;
        }
        text.push_str(store_step(alloc, store, part)?.as_str())?;
    }
    Ok(text)
}

impl Trial for Stores {
    fn given(&self) -> usize {
        3
    }

    fn found(&self, alloc: Global, fields: &[&str]) -> Result<String> {
        let [file, fails, steps, ..] = fields else {
            bail!("a file, calls and steps are wanted");
        };
        let mut store = store_of(alloc, *file, *fails)?;
        let told = steps_text(alloc, &mut store, *steps);
        drop(store);
        told
    }
}
