use crate::case::sound_case;
use crate::ending::ending_of;
use crate::run::{ProgramEnd, run};
use anyhow::{Context, Result};
use case_tables::bytes_of;
use std::alloc::Global;
use std::str;
use std::sync::Wait;
use std::thread::Threads;

/// The words of a run of a bundle.
pub const REPLAY: &str = "--replay";

/// The word of a check.
const CHECK: &str = "--check";

// The ending of a run that is to write nothing.
fn refusal_text(alloc: Global, ended: &ProgramEnd) -> Result<String> {
    let ending = ending_of(alloc, ended)?;
    if ended.written.is_empty() {
        return Ok(ending);
    }
    Ok(format!(in alloc; "{ending}, with output")?)
}

/// Bytes that are refused: the input; the ending. Nothing is written.
pub fn refused<R: Threads + Wait + Sync>(
    threads: &R,
    alloc: Global,
    fields: &[&str],
) -> Result<String> {
    let input = bytes_of(alloc, *fields.first().context("an input is wanted")?)?;
    refusal_text(alloc, &run(threads, alloc, &sound_case(REPLAY, &input))?)
}

/// Words that have no meaning: the words; the ending. Nothing is read or written.
pub fn meaningless<R: Threads + Wait + Sync>(
    threads: &R,
    alloc: Global,
    fields: &[&str],
) -> Result<String> {
    let words = bytes_of(alloc, *fields.first().context("words are wanted")?)?;
    let case = sound_case(str::from_utf8(&words)?, b"end\n");
    refusal_text(alloc, &run(threads, alloc, &case)?)
}

/// Bundles: the input; the output.
pub fn printed<R: Threads + Wait + Sync>(
    threads: &R,
    alloc: Global,
    fields: &[&str],
) -> Result<String> {
    let input = bytes_of(alloc, *fields.first().context("an input is wanted")?)?;
    let ended = run(threads, alloc, &sound_case(REPLAY, &input))?;
    let ending = ending_of(alloc, &ended)?;
    if ending.as_str() != "done" {
        return Ok(ending);
    }
    Ok(String::from_str(alloc, str::from_utf8(&ended.written)?)?)
}

/// Texts behind a bundle, of which it is found whether they are its output: the input; the ending, and the line that is written.
pub fn judged<R: Threads + Wait + Sync>(
    threads: &R,
    alloc: Global,
    fields: &[&str],
) -> Result<String> {
    let input = bytes_of(alloc, *fields.first().context("an input is wanted")?)?;
    let ended = run(threads, alloc, &sound_case(CHECK, &input))?;
    let ending = ending_of(alloc, &ended)?;
    let line = str::from_utf8(&ended.written)?;
    Ok(format!(in alloc; "{ending}: {line}")?)
}
