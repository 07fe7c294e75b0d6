ghost use Rattle.std.specs.Prelude.{◌≡◌, ◌==◌, ◌-◌, ◌++◌, ◌∷◌, [], IfOk, IsSome, IsTrue, OnOk, Some, codes, count_by, decimal, find, length, map, option_copied, option_map, slice_get};
ghost use Rattle.std.specs.List.{list_all};
ghost use Rattle.apl_arrays.specs.List.{glyphs_in};
ghost use Rattle.line_text.specs.Lines.{line_text};
ghost use Rattle.line_text.specs.Spaced.{is_plain};
ghost use Rattle.sv_events.specs.Entry.{plain_entry};
ghost use Rattle.apl_session.specs.Ended.{IfWhole};
ghost use Rattle.apl_session.specs.Transcripts.{plain_transcript};
ghost use Rattle.aplsv_top.specs.Loads.{IsSummaryIn};
ghost use Rattle.aplsv_top.specs.Summary.{IsSummary, last_line, last_of, line_count, was_held};

use apl_arrays::{Bytes, Line, List, WantOfMemory};
use apl_session::{Ended, Transcript, Transcripts};
use line_text::{add_content, add_count, add_line, add_text, add_word};
use std::alloc::Global;
use sv_events::Entry;
use sv_rules::is_held;

/// The user whose last line is shown.
const ADDER: u32 = 1002;

/// What is written of a run of a load: six lines, which tell how many numbers were given, how many entries the journal has,
/// how many of them were held, how many lines all transcripts have, and the last line of user 1002, who adds. It takes
/// memory for the bytes.
pub fn summary(
    alloc: Global,
    n: u32,
    transcripts: &Transcripts,
    journal: &[Entry],
) -> Result<Bytes, WantOfMemory>
    requires { IsSome (last_line transcripts.now.items) }
    ensures { IfOk result (λ bytes. IsSummary n transcripts.now.items (map plain_entry journal.now) bytes.items) }
{
    let lines = line_count(transcripts.as_slice())?;
    let mut bytes = Vec::new(alloc);
    add_counted(alloc, &mut bytes, "load ", u64::from(n))?;
    add_counted(alloc, &mut bytes, "entries ", journal.len() as u64)?;
    add_counted(alloc, &mut bytes, "held ", held_count(journal))?;
    add_counted(alloc, &mut bytes, "lines ", lines)?;
    add_content(&mut bytes, shown_line(transcripts.as_slice()))?;
    add_word(alloc, &mut bytes, "end")?;
    Ok(List::from(bytes))
}

/// What is written of a run of a load that is whole. It takes memory for the bytes.
pub(crate) fn summary_in(alloc: Global, n: u32, ended: Ended) -> Result<Bytes, WantOfMemory>
    requires { IfWhole ended (λ transcripts journal. IsSome (last_line transcripts)) }
    ensures { IfOk result (λ bytes. IsSummaryIn n ended bytes.items) }
{
    match ended {
        Ended::Whole {
            transcripts,
            journal,
        } => summary(alloc, n, &transcripts, journal.as_slice()),
        Ended::WantOfMemory => Err(WantOfMemory),
    }
}

/// Adds a line of a word and a number. It takes memory for the line; where that runs out, a part of it may stand there.
pub(crate) fn add_counted(
    alloc: Global,
    bytes: &mut Vec<u8>,
    word: &str,
    count: u64,
) -> Result<(), WantOfMemory>
    requires { IsTrue (list_all is_plain word.now) }
    ensures { OnOk result (bytes.new.items ≡ bytes.old.items ++ line_text (word.now ++ decimal count)) }
{
    let mut line = List::new(alloc);
    add_text(&mut line, word)?;
    add_count(&mut line, count)?;
    add_line(bytes, &line)
}

// How many entries were held.
fn held_count(journal: &[Entry]) -> u64
    ensures { result ≡ count_by (λ entry. was_held (plain_entry entry)) journal.now }
{
    journal.iter().filter(|entry| was_held(entry)).count() as u64
}

// Whether an entry was.
#[tactic(auto, unfolding(crate::specs::Summary::was_held))]
fn was_held(entry: &Entry) -> bool
    ensures { result ≡ was_held (plain_entry entry.now) }
{
    is_held(entry.answer.row().kind)
}

// How many lines the transcripts have. More than can be counted are more than memory has room for.
fn line_count(transcripts: &[Transcript]) -> Result<u64, WantOfMemory>
    ensures { IfOk result (λ count. count ≡ line_count (map plain_transcript transcripts.now)) }
{
    let mut count = 0_u64;
    for transcript in transcripts {
        count = count
            .checked_add(transcript.lines.as_slice().len() as u64)
            .ok_or(WantOfMemory)?;
    }
    Ok(count)
}

// The line that is shown.
fn shown_line(transcripts: &[Transcript]) -> &Line
    requires { IsSome (last_line (map plain_transcript transcripts.now)) }
    ensures { last_line (map plain_transcript transcripts.now) ≡ Some result.now.items }
{
    match last_line(transcripts) {
        Some(line) => line,
        None => unreachable!(),
    }
}

// The last line of the user who adds.
fn last_line(transcripts: &[Transcript]) -> Option<&Line>
    ensures { option_map glyphs_in (option_copied result) ≡ last_line (map plain_transcript transcripts.now) }
{
    match adder_in(transcripts) {
        Some(transcript) => last_of(transcript.lines.as_slice()),
        None => None,
    }
}

// The transcript of the user who adds.
fn adder_in(transcripts: &[Transcript]) -> Option<&Transcript>
    ensures { option_copied result ≡ find (λ transcript. transcript.user == 1002) transcripts.now }
{
    transcripts
        .iter()
        .find(|transcript| transcript.user == ADDER)
}

// The last of some lines.
fn last_of(lines: &[Line]) -> Option<&Line>
    ensures { option_map glyphs_in (option_copied result) ≡ last_of (map glyphs_in lines.now) }
{
    lines.last()
}
