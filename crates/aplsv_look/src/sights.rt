ghost use Rattle.std.specs.Prelude.{◌≡◌, IfErr, IfOk, MatchOption, length, map};
ghost use Rattle.sv_events.specs.Entry.{plain_entry};
ghost use Rattle.printed_text.specs.Printed.{plain_printed};
ghost use Rattle.sv_core.specs.Core.{ArePeople};
ghost use Rattle.aplsv_look.specs.Sights.{IsSightOf, IsSight, StandsBehind, IsLookRefusal, IsPastEnd, IsWhy, LacksEntry, SaysWhy, ShowsEntries, users_in};
ghost use Rattle.aplsv_words.specs.declared.look.Look.TheVariants as looks;

use crate::refused::LookRefused;
use apl_arrays::WantOfMemory;
use aplsv_words::Look;
use printed_text::{PrintedTranscript, read};
use run_judging::first_illegal;
use run_picture::{picture_of, window_of};
use run_reasons::why_lines;
use std::alloc::Global;
use sv_events::Entry;

/// What a look at a text shows: a picture of entries of the output that it is, or why an entry of it is what it is; there the
/// first entry before it is named that may not follow those in front of that, where one may not. `NoOutput` where the text is no
/// output, whatever users are named, at the first line that none has there; and `NoEntry` where the journal has no entry at a
/// place that is asked for, where the second place is in front of the first, and where there is no entry at all. It takes memory
/// for the output and for the sight.
pub fn sight_of(alloc: Global, look: Look, text: &[u8]) -> Result<Vec<u8>, LookRefused>
    ensures sight { IfOk result (λ sight. IsSight look text.now sight.items) }
    ensures refused { IfErr result (λ why. IsLookRefusal look text.now why) }
{
    let printed = read(alloc, None, text)?;
    let sight = sight_in(alloc, look, printed.transcripts(), printed.journal());
    drop(printed);
    sight
}

// What a look at what an output tells shows.
fn sight_in(
    alloc: Global,
    look: Look,
    transcripts: &[PrintedTranscript],
    entries: &[Entry],
) -> Result<Vec<u8>, LookRefused>
    requires { ArePeople (users_in (map plain_printed transcripts.now)) }
    ensures sight { IfOk result (λ sight. IsSightOf look (map plain_printed transcripts.now) (map plain_entry entries.now) sight.items) }
    ensures refused { IfErr result (λ why. LacksEntry look (map plain_entry entries.now) why) }
{
    match look {
        Look::Picture { from, to } => picture_from(alloc, entries, from, to),
        Look::Why(place) => why_at(alloc, transcripts, entries, place),
    }
}

// A picture of the entries from one place to another.
fn picture_from(
    alloc: Global,
    entries: &[Entry],
    from: Option<u64>,
    to: Option<u64>,
) -> Result<Vec<u8>, LookRefused>
    ensures sight { IfOk result (λ picture. ShowsEntries from to (map plain_entry entries.now) picture.items) }
    ensures refused { IfErr result (λ why. LacksEntry (looks.Picture from to) (map plain_entry entries.now) why) }
{
    match window_of(entries.len() as u64, from, to) {
        None => Err(LookRefused::NoEntry),
        Some(window) => Ok(picture_of(alloc, entries, &window)?),
    }
}

// Why the entry at a place is what it is.
fn why_at(
    alloc: Global,
    transcripts: &[PrintedTranscript],
    entries: &[Entry],
    place: u64,
) -> Result<Vec<u8>, LookRefused>
    requires { ArePeople (users_in (map plain_printed transcripts.now)) }
    ensures sight { IfOk result (λ lines. IsWhy place (map plain_printed transcripts.now) (map plain_entry entries.now) lines.items) }
    ensures refused { IfErr result (λ why. LacksEntry (looks.Why place) (map plain_entry entries.now) why) }
{
    match entry_at(entries, place) {
        None => Err(LookRefused::NoEntry),
        Some((before, entry)) => Ok(why_behind(alloc, transcripts, before, entry)?),
    }
}

// The entry at a place, and those before it.
fn entry_at(entries: &[Entry], place: u64) -> Option<(&[Entry], &Entry)>
    ensures { MatchOption result (IsPastEnd place (length entries.now)) (λ found. StandsBehind place entries.now found.0.now found.1.now) }
{
    if place == 0 || place > entries.len() as u64 {
        return None;
    }
    let front = (place - 1) as usize;
    Some((&entries[..front], &entries[front]))
}

// The numbers of the users that saw something.
fn users_of(alloc: Global, transcripts: &[PrintedTranscript]) -> Result<Vec<u32>, WantOfMemory>
    ensures { IfOk result (λ users. users.items ≡ users_in (map plain_printed transcripts.now)) }
{
    let mut users = Vec::new(alloc);
    for transcript in transcripts {
        users.push(transcript.user)?;
    }
    Ok(users)
}

// Why an entry behind others is what it is, in a run of these users.
fn why_behind(
    alloc: Global,
    transcripts: &[PrintedTranscript],
    before: &[Entry],
    entry: &Entry,
) -> Result<Vec<u8>, WantOfMemory>
    requires { ArePeople (users_in (map plain_printed transcripts.now)) }
    ensures { IfOk result (λ lines. SaysWhy (users_in (map plain_printed transcripts.now)) (map plain_entry before.now) (plain_entry entry.now) lines.items) }
{
    let users = users_of(alloc, transcripts)?;
    let illegal = first_illegal(alloc, &users, before)?;
    why_lines(alloc, before, entry, illegal)
}
