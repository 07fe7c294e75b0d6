use crate::case::sound_case;
use crate::files::StoredCase;
use crate::gates::Meeting;
use crate::run::{ProgramEnd, run_past};
use anyhow::{Context, Result, bail};
use case_tables::bytes_of;
use std::alloc::Global;
use std::str;
use std::sync::Wait;
use std::thread::Threads;

// The run of a stored case's bundle by other words, past a gate.
fn threaded<R: Threads + Wait + Sync>(
    threads: &R,
    alloc: Global,
    stored: &StoredCase,
    words: &str,
    gate: &Meeting,
) -> Result<ProgramEnd> {
    let words = bytes_of(alloc, words)?;
    run_past(
        threads,
        alloc,
        &sound_case(str::from_utf8(&words)?, stored.case().input),
        gate,
    )
}

/// Bundles of stored cases on threads, of which the journal is the same however the turns fall: the case, and the words. It ends
/// as the case does, and writes the same.
pub fn one_journal<R: Threads + Wait + Sync>(
    rt: &HostRuntime,
    threads: &R,
    alloc: Global,
    fields: &[&str],
) -> Result<String> {
    let [name, words, ..] = fields else {
        bail!("a case and words are wanted");
    };
    let stored = StoredCase::read(rt, *name)?;
    let ended = threaded(threads, alloc, &stored, *words, &Meeting::of(0))?;
    let wanted = stored.wanted()?;
    let code = ended.code;
    Ok(if code != wanted.code {
        format!(in alloc; "status {code}")?
    } else if ended.written.as_slice() != wanted.written {
        String::from_str(alloc, "another output")?
    } else {
        String::from_str(alloc, "as wanted")?
    })
}

/// Bundles of stored cases on threads where users meet before their first turns: the case, the words, and how many users meet.
/// They meet, and all is done.
pub fn meetings<R: Threads + Wait + Sync>(
    rt: &HostRuntime,
    threads: &R,
    alloc: Global,
    fields: &[&str],
) -> Result<String> {
    let [name, words, users, ..] = fields else {
        bail!("a case, words and a number of users are wanted");
    };
    let stored = StoredCase::read(rt, *name)?;
    let gate = Meeting::of(users.parse().ok().context("no number of users")?);
    let code = threaded(threads, alloc, &stored, *words, &gate)?.code;
    let meeting = if gate.have_met() { "met" } else { "went alone" };
    Ok(format!(in alloc; "{meeting}, status {code}")?)
}

// Whether the transcripts of an output end with these lines.
fn ends_with(output: &str, lines: &str) -> bool {
    match output.split_once("\njournal\n") {
        Some((transcripts, _)) => transcripts.strip_suffix(lines).is_some(),
        None => false,
    }
}

/// Bundles of stored cases on threads of which the last transcript ends with the same lines in each run: the case, the words, the
/// lines where no access was abandoned, and those where one was.
pub fn last_lines<R: Threads + Wait + Sync>(
    rt: &HostRuntime,
    threads: &R,
    alloc: Global,
    fields: &[&str],
) -> Result<String> {
    let [name, words, lines, abandoned, ..] = fields else {
        bail!("a case, words, lines and other lines are wanted");
    };
    let stored = StoredCase::read(rt, *name)?;
    let ended = threaded(threads, alloc, &stored, *words, &Meeting::of(0))?;
    let output = str::from_utf8(&ended.written)?;
    let was_abandoned = output.split_once(" : abandoned ").is_some();
    let lines = bytes_of(alloc, if was_abandoned { *abandoned } else { *lines })?;
    let code = ended.code;
    let ends_so = ends_with(output, str::from_utf8(&lines)?);
    let ending = if ends_so { "as wanted" } else { "other lines" };
    Ok(format!(in alloc; "{ending}, status {code}")?)
}
