use anyhow::{Context, Result, bail};
use case_fields::{line_of, stated, unescaped};
use std::alloc::Global;
use sv_events::Entry;
use sv_journal::{EntryRefused, read};

/// The users that a field names, with blanks between, or none where it is a dash.
pub fn users_of(alloc: Global, field: &str) -> Result<Vec<u32>> {
    let mut users = Vec::new(alloc);
    for word in stated(field).unwrap_or("").split_whitespace() {
        users.push(word.parse::<u32>().context("no user")?)?;
    }
    Ok(users)
}

// The entry of this place, where it has the place that is wanted.
fn entry_at(place: u64, entry: Entry, wanted: u64) -> Result<Entry> {
    if place == wanted {
        return Ok(entry);
    }
    drop(entry);
    bail!("entry {wanted} says that its place is {place}")
}

// The entry of a text, which has this place.
fn entry_of(alloc: Global, text: &str, wanted: u64) -> Result<Entry> {
    let line = line_of(alloc, unescaped(alloc, text)?.as_str())?;
    match read(alloc, &line) {
        Ok((place, entry)) => entry_at(place, entry, wanted),
        Err(EntryRefused::BadEntry(at)) => bail!("entry {wanted} is no entry's text at {at}"),
        Err(EntryRefused::WantOfMemory) => bail!("out of memory"),
    }
}

/// The entries that a field has, with ` / ` between, numbered from 1, or none where it is a dash.
pub fn entries_of(alloc: Global, field: &str) -> Result<Vec<Entry>> {
    let mut entries = Vec::new(alloc);
    if field == "-" {
        return Ok(entries);
    }
    for text in field.split(" / ") {
        let place = entries.len() as u64 + 1;
        entries.push(entry_of(alloc, text, place)?)?;
    }
    Ok(entries)
}

/// `legal`, or the number of the first entry that is not, where so many entries are.
pub fn verdict(alloc: Global, legal: usize, count: usize) -> Result<String> {
    if legal == count {
        Ok(String::from_str(alloc, "legal")?)
    } else {
        let first = legal.saturating_add(1);
        Ok(format!(in alloc; "{first}")?)
    }
}
