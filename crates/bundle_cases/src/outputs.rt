use anyhow::{Result, bail};
use apl_arrays::{LineList, utf8_of};
use case_tables::{Trial, bytes_of};
use printed_text::{Printed, PrintedRefused, PrintedTranscript, read};
use std::alloc::Global;
use std::str;
use sv_events::Entry;
use sv_journal::text_of;

/// Texts that are said to be outputs: the users that are named, `none`, or `any` where they may be any; the bytes; what the
/// output has, or where the text departs from all outputs.
#[derive(Clone, Copy, Debug)]
pub struct Outputs;

// The users that a field names, if it names them.
fn users_of(alloc: Global, field: &str) -> Result<Option<Vec<u32>>> {
    if field == "any" {
        return Ok(None);
    }
    let mut users = Vec::new(alloc);
    if field != "none" {
        for word in field.split_whitespace() {
            users.push(word.parse()?)?;
        }
    }
    Ok(Some(users))
}

// Each line, behind a bar.
fn push_lines(alloc: Global, text: &mut String, lines: &LineList) -> Result<()> {
    for line in lines.as_slice() {
        text.push_str(" |")?;
        let line = utf8_of(alloc, line)?;
        text.push_str(str::from_utf8(line.as_slice())?)?;
    }
    Ok(())
}

// What users saw: the heading of each, and its lines.
fn push_transcripts(
    alloc: Global,
    text: &mut String,
    transcripts: &[PrintedTranscript],
) -> Result<()> {
    for one in transcripts {
        let number = one.user;
        write!(text, "user {number}")?;
        push_lines(alloc, text, &one.lines)?;
        text.push_str("; ")?;
    }
    Ok(())
}

// The entries, each with its place.
fn push_entries(alloc: Global, text: &mut String, entries: &[Entry]) -> Result<()> {
    let mut place = 0_u64;
    for entry in entries {
        place = place.saturating_add(1);
        let line = utf8_of(alloc, &text_of(alloc, place, entry)?)?;
        text.push_str(str::from_utf8(line.as_slice())?)?;
        text.push_str("; ")?;
    }
    Ok(())
}

// What an output has: what each user saw, the entries, and `end`.
fn shown(alloc: Global, printed: &Printed) -> Result<String> {
    let mut text = String::new(alloc);
    push_transcripts(alloc, &mut text, printed.transcripts())?;
    push_entries(alloc, &mut text, printed.journal())?;
    text.push_str("end")?;
    Ok(text)
}

/// What the reader says of bytes, with these users.
pub fn said_of(alloc: Global, users: Option<&[u32]>, bytes: &[u8]) -> Result<String> {
    match read(alloc, users, bytes) {
        Ok(printed) => {
            let text = shown(alloc, &printed);
            drop(printed);
            text
        }
        Err(PrintedRefused::WantOfMemory) => bail!("out of memory"),
        Err(why) => Ok(why.to_string(alloc)?),
    }
}

impl Trial for Outputs {
    fn given(&self) -> usize {
        2
    }

    fn found(&self, alloc: Global, fields: &[&str]) -> Result<String> {
        let [users, text, ..] = fields else {
            bail!("users and a text are wanted");
        };
        let users = users_of(alloc, *users)?;
        let bytes = bytes_of(alloc, *text)?;
        match users {
            None => said_of(alloc, None, &bytes),
            Some(users) => said_of(alloc, Some(users.as_slice()), &bytes),
        }
    }
}
