use anyhow::{Result, bail};
use case_tables::{Trial, bytes_of};
use printed_text::{PrintedRefused, read};
use run_reasons::why_lines;
use std::alloc::Global;
use std::str;
use sv_events::Entry;

/// Entries of outputs: the output, the place of the entry, the place of the first entry before it that may not follow or `none`;
/// and the lines that say why the entry is what it is.
#[derive(Clone, Copy, Debug)]
pub struct Reasons;

// The place that a field names, if it names one.
fn place_of(field: &str) -> Result<Option<u64>> {
    if field == "none" {
        return Ok(None);
    }
    Ok(Some(field.parse()?))
}

// Lines in one: ` / ` stands between two.
fn in_one_line(alloc: Global, lines: &str) -> Result<String> {
    let mut text = String::new(alloc);
    for line in lines.lines() {
        if !text.is_empty() {
            text.push_str(" / ")?;
        }
        text.push_str(line)?;
    }
    Ok(text)
}

// Why the entry at a place is what it is.
fn why(alloc: Global, entries: &[Entry], place: usize, illegal: Option<u64>) -> Result<String> {
    if place == 0 || place > entries.len() {
        bail!("no entry");
    }
    let bytes = why_lines(alloc, &entries[..place - 1], &entries[place - 1], illegal)?;
    in_one_line(alloc, str::from_utf8(&bytes)?)
}

impl Trial for Reasons {
    fn given(&self) -> usize {
        3
    }

    fn found(&self, alloc: Global, fields: &[&str]) -> Result<String> {
        let [text, place, illegal, ..] = fields else {
            bail!("a text, a place and the place of an entry that may not follow are wanted");
        };
        let place = place.parse()?;
        let illegal = place_of(*illegal)?;
        match read(alloc, None, &bytes_of(alloc, *text)?) {
            Ok(printed) => {
                let lines = why(alloc, printed.journal(), place, illegal);
                drop(printed);
                lines
            }
            Err(PrintedRefused::WantOfMemory) => bail!("out of memory"),
            Err(refused) => Ok(refused.to_string(alloc)?),
        }
    }
}
