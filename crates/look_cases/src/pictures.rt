use crate::windows::place_of;
use anyhow::{Context, Result, bail};
use case_tables::Trial;
use printed_text::{PrintedRefused, read};
use run_picture::{picture_of, window_of};
use std::alloc::Global;
use std::{fs, str};
use sv_events::Entry;

/// Pictures of outputs: the file of an output; the first and the last place, or `-` where it is not named; the file of the
/// picture; and `same`, or how the picture differs.
#[derive(Clone, Copy)]
pub struct Pictures {
    pub rt: HostRuntime,
}

// The first line in which two texts differ.
fn first_difference(alloc: Global, text: &str, other: &str) -> Result<String> {
    if text == other {
        return Ok(String::from_str(alloc, "same")?);
    }
    let mut others = other.lines();
    for line in text.lines() {
        if others.next() != Some(line) {
            return Ok(String::from_str(alloc, line)?);
        }
    }
    Ok(String::from_str(alloc, "it ends too early")?)
}

// How the picture of entries differs from another.
fn compared(
    alloc: Global,
    entries: &[Entry],
    from: Option<u64>,
    to: Option<u64>,
    picture: &str,
) -> Result<String> {
    if entries.len() >= 1_000_000 {
        bail!("too many entries");
    }
    match window_of(entries.len() as u64, from, to) {
        None => Ok(String::from_str(alloc, "no entry")?),
        Some(window) => {
            let bytes = picture_of(alloc, entries, &window)?;
            first_difference(alloc, str::from_utf8(&bytes)?, picture)
        }
    }
}

impl Trial for Pictures {
    fn given(&self) -> usize {
        4
    }

    fn found(&self, alloc: Global, fields: &[&str]) -> Result<String> {
        let [output, from, to, picture, ..] = fields else {
            bail!("an output, two places and a picture are wanted");
        };
        let from = place_of(*from)?;
        let to = place_of(*to)?;
        let text = fs::read_to_string(&self.rt, *output).context("no output is there")?;
        let picture = fs::read_to_string(&self.rt, *picture).context("no picture is there")?;
        match read(alloc, None, text.as_bytes()) {
            Ok(printed) => {
                let told = compared(alloc, printed.journal(), from, to, picture.as_str());
                drop(printed);
                told
            }
            Err(PrintedRefused::WantOfMemory) => bail!("out of memory"),
            Err(refused) => Ok(refused.to_string(alloc)?),
        }
    }
}
