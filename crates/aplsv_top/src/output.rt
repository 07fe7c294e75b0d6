ghost use Rattle.std.specs.Prelude.{◌≡◌, All, ◌++◌, OnOk, IfOk, map};
ghost use Rattle.std.specs.List.{flat_map};
ghost use Rattle.line_text.specs.Lines.{lines_text};
ghost use Rattle.sv_events.specs.Entry.{plain_entry};
ghost use Rattle.sv_journal.specs.Output.{transcript_lines, output_text};
ghost use Rattle.sv_journal.specs.Printable.{IsPrintableTranscript, ArePrintable};
ghost use Rattle.apl_session.specs.Transcripts.{plain_transcript};
ghost use Rattle.aplsv_top.specs.Headline.{IsOutputIn};

use apl_arrays::{Bytes, List, WantOfMemory};
use apl_session::{Ended, Transcript, Transcripts};
use line_text::add_user_lines;
use std::alloc::Global;
use sv_events::Entry;
use sv_journal::add_journal;

/// How many bytes an entry often takes, with the lines of its party: room for them is made at once.
const ENTRY_BYTES: usize = 64;

// Adds a transcript.
fn add_transcript(
    alloc: Global,
    bytes: &mut Vec<u8>,
    transcript: &Transcript,
) -> Result<(), WantOfMemory>
    ensures text { OnOk result (bytes.new.items
        ≡ bytes.old.items ++ lines_text (transcript_lines (plain_transcript transcript.now))) }
    ensures printable { OnOk result (IsPrintableTranscript (plain_transcript transcript.now)) }
{
    add_user_lines(alloc, bytes, transcript.user, transcript.lines.as_slice())
}

// Adds transcripts.
fn add_transcripts(
    alloc: Global,
    bytes: &mut Vec<u8>,
    transcripts: &[Transcript],
) -> Result<(), WantOfMemory>
    ensures text { OnOk result (bytes.new.items
        ≡ bytes.old.items ++ lines_text (flat_map transcript_lines (map plain_transcript transcripts.now))) }
    ensures printable { OnOk result (All IsPrintableTranscript (map plain_transcript transcripts.now)) }
{
    for transcript in transcripts {
        add_transcript(alloc, bytes, transcript)?;
    }
    Ok(())
}

/// What is written of transcripts and a journal with its oldest entry first: each user's lines, the entries numbered
/// from 1, and `end`. It takes memory for the bytes.
pub fn output_of(
    alloc: Global,
    transcripts: &Transcripts,
    journal: &[Entry],
) -> Result<Bytes, WantOfMemory>
    ensures text { IfOk result (λ bytes.
        bytes.items ≡ output_text transcripts.now.items (map plain_entry journal.now)) }
    ensures printable { OnOk result (ArePrintable transcripts.now.items (map plain_entry journal.now)) }
{
    let mut bytes = Vec::new(alloc);
    bytes.reserve(journal.len().saturating_mul(ENTRY_BYTES))?;
    add_transcripts(alloc, &mut bytes, transcripts.as_slice())?;
    add_journal(alloc, &mut bytes, journal)?;
    Ok(List::from(bytes))
}

/// What is written of a run that is whole. It takes memory for the bytes.
pub(crate) fn output_in(alloc: Global, ended: Ended) -> Result<Bytes, WantOfMemory>
    ensures { IfOk result (λ output. IsOutputIn ended output.items) }
{
    match ended {
        Ended::Whole {
            transcripts,
            journal,
        } => output_of(alloc, &transcripts, journal.as_slice()),
        Ended::WantOfMemory => Err(WantOfMemory),
    }
}
