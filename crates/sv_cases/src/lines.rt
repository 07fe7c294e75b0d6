use anyhow::{Result, bail};
use apl_arrays::Line;
use case_fields::{glyphs_text, line_of, unescaped};
use case_tables::Trial;
use std::alloc::Global;
use sv_events::Entry;
use sv_journal::{EntryRefused, read, text_of};

/// Lines that are read as entries of a journal: `again` where an entry with this text is read, else how long the part
/// of the line is with which some entry's text begins.
#[derive(Clone, Copy, Debug)]
pub struct JournalLines;

// How a line that was read compares with what is written of what was read.
pub(crate) fn compared(alloc: Global, line: &Line, written: &Line) -> Result<String> {
    if line == written {
        return Ok(String::from_str(alloc, "again")?);
    }
    glyphs_text(alloc, written.as_slice())
}

// How a line compares with the text of the entry that was read from it. The entry is let go.
fn written_again(alloc: Global, line: &Line, place: u64, entry: Entry) -> Result<String> {
    let written = text_of(alloc, place, &entry);
    drop(entry);
    compared(alloc, line, &written?)
}

impl Trial for JournalLines {
    fn given(&self) -> usize {
        1
    }

    fn found(&self, alloc: Global, fields: &[&str]) -> Result<String> {
        let [field, ..] = fields else {
            bail!("a line is wanted");
        };
        let line = line_of(alloc, unescaped(alloc, *field)?.as_str())?;
        match read(alloc, &line) {
            Ok((place, entry)) => written_again(alloc, &line, place, entry),
            Err(EntryRefused::BadEntry(at)) => Ok(format!(in alloc; "{at}")?),
            Err(EntryRefused::WantOfMemory) => bail!("out of memory"),
        }
    }
}
