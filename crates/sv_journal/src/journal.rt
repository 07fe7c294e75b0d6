ghost use Rattle.std.specs.Prelude.{◌≡◌, All, ◌++◌, List as ListOf, OnOk, map, OnErr};
ghost use Rattle.apl_arrays.specs.Front.{KeepsFront};
ghost use Rattle.sv_events.specs.Entry.{PlainEntry, plain_entry};
ghost use Rattle.line_text.specs.Lines.{line_text, lines_text};
ghost use Rattle.sv_journal.specs.EntryText.{entry_text};
ghost use Rattle.sv_journal.specs.Output.{PlainTranscript, entry_lines, journal_lines, output_text};
ghost use Rattle.sv_journal.specs.Printable.{IsPrintableEntry, ArePrintable};

use crate::entry_text::add_entry;
use apl_arrays::{Line, List, WantOfMemory};
use line_text::{add_line, add_word};
use std::alloc::Global;
use sv_events::Entry;

// Adds an entry's line, whose text is made in the memory of another line.
fn add_entry_line(
    bytes: &mut Vec<u8>,
    line: &mut Line,
    place: u64,
    entry: &Entry,
) -> Result<(), WantOfMemory>
    ensures text { OnOk result (bytes.new.items
        ≡ bytes.old.items ++ line_text (entry_text place (plain_entry entry.now))) }
    ensures front { OnErr result (KeepsFront bytes.old.items bytes.new.items) }
    ensures printable { OnOk result (IsPrintableEntry (plain_entry entry.now)) }
{
    line.clear();
    add_entry(line, place, entry)?;
    add_line(bytes, line)
}

// Adds entries, numbered from 1.
fn add_entries(alloc: Global, bytes: &mut Vec<u8>, entries: &[Entry]) -> Result<(), WantOfMemory>
    ensures text { OnOk result (bytes.new.items
        ≡ bytes.old.items ++ lines_text (entry_lines 1 (map plain_entry entries.now))) }
    ensures front { OnErr result (KeepsFront bytes.old.items bytes.new.items) }
    ensures printable { OnOk result (All IsPrintableEntry (map plain_entry entries.now)) }
{
    let mut line = List::new(alloc);
    for (index, entry) in entries.iter().enumerate() {
        add_entry_line(bytes, &mut line, index as u64 + 1, entry)?;
    }
    Ok(())
}

/// Adds a journal, its oldest entry first, between its heading and the end. It takes memory for the bytes and for one
/// line; where that runs out, a part of the journal may stand there, behind what stood there before.
pub fn add_journal(
    alloc: Global,
    bytes: &mut Vec<u8>,
    entries: &[Entry],
) -> Result<(), WantOfMemory>
    ensures text { OnOk result (bytes.new.items
        ≡ bytes.old.items ++ lines_text (journal_lines (map plain_entry entries.now))) }
    ensures front { OnErr result (KeepsFront bytes.old.items bytes.new.items) }
    ensures printable { OnOk result (All IsPrintableEntry (map plain_entry entries.now)) }
{
    add_word(alloc, bytes, "journal")?;
    add_entries(alloc, bytes, entries)?;
    add_word(alloc, bytes, "end")
}

/// The bytes that are written tell the transcripts and the journal: no others have the same output. The call does
/// nothing.
pub fn an_output_is_read_in_one_way()
    ensures { (transcripts others : ListOf PlainTranscript) (journal another : ListOf PlainEntry)
        → ArePrintable transcripts journal → ArePrintable others another
        → output_text transcripts journal ≡ output_text others another
        → (transcripts ≡ others) × (journal ≡ another) }
{}
