ghost use Rattle.std.specs.Prelude.{◌≡◌, IfOk, vec_len};
ghost use Rattle.apl_arrays.specs.Limits.{most_users};

use crate::case::{ROOM, SOUND};
use crate::gates::Meeting;
use crate::over::source_of;
use crate::run::words_of;
use crate::scant::Scant;
use anyhow::{Context, Result, bail};
use apl_arrays::{List, USER_LIMIT};
use apl_io::{CallNumbers, MemoryClock, MemoryShelf, MemorySink, MemorySource, MemoryText};
use aplsv_top::{Finish, Status, aplsv};
use case_devices::store_of;
use case_tables::bytes_of;
use std::alloc::Global;
use std::str;
use std::sync::Wait;
use std::thread::Threads;

/// What a row says: words, the call of each shelf at which memory runs out, a file and the call of the text store at which it
/// does, and the bundle.
#[derive(Clone, Copy, Debug)]
struct Scarcity<'a> {
    words: &'a str,
    shelves: &'a str,
    file: &'a str,
    text: &'a str,
    bundle: &'a str,
}

/// Bundles on threads over devices for which memory runs out: how the run ends, how many of the users came to their first turn, and
/// which devices were called how often; the same with 1, 2, 4 and 34 workers. The run ends once all users have left, since the
/// clock goes on until then.
pub fn scarce<R: Threads + Wait + Sync>(
    threads: &R,
    alloc: Global,
    fields: &[&str],
) -> Result<String> {
    let [words, shelves, file, text, bundle, ..] = fields else {
        bail!("words, devices and a bundle are wanted");
    };
    let row = Scarcity {
        words: *words,
        shelves: *shelves,
        file: *file,
        text: *text,
        bundle: *bundle,
    };
    let alone = ended_by(threads, alloc, &row, "1")?;
    for workers in "2 4 34".split(" ") {
        let found = ended_by(threads, alloc, &row, workers)?;
        if found.as_str() != alone.as_str() {
            return Ok(format!(in alloc; "{alone}, and with {workers} workers {found}")?);
        }
    }
    Ok(alone)
}

// What so many workers come to.
fn ended_by<R: Threads + Wait + Sync>(
    threads: &R,
    alloc: Global,
    row: &Scarcity<'_>,
    workers: &str,
) -> Result<String> {
    let others = bytes_of(alloc, row.words)?;
    let others = str::from_utf8(&others)?;
    let words = format!(in alloc; "--workers\n{workers}\n{others}")?;
    let words = words_of(alloc, words.as_str())?;
    let gate = Meeting::of(0);
    let mut sink = MemorySink::new(alloc, ROOM, SOUND.piece, CallNumbers::new(alloc))?;
    let left = run_over(threads, alloc, row, &words, &mut sink, &gate);
    let is_written = !sink.bytes().is_empty();
    drop(sink);
    told(alloc, left?, gate.came(), is_written)
}

/// How a run ended, and the devices as it left them.
#[derive(Debug, Drop)]
struct Left {
    status: Status,
    text: Scant<MemoryText>,
    shelves: Vec<Scant<MemoryShelf>>,
}

// The run of a row's bundle over its devices.
fn run_over<R: Threads + Wait + Sync>(
    threads: &R,
    alloc: Global,
    row: &Scarcity<'_>,
    words: &[String],
    sink: &mut MemorySink,
    gate: &Meeting,
) -> Result<Left> {
    let shelves = shelves_of(alloc, row.shelves)?;
    let text = Scant::new(store_of(alloc, row.file, "")?, number_at(row.text, 0)?);
    let mut source = source_of(alloc, row.bundle)?;
    let left = finished(
        threads,
        alloc,
        words,
        &mut source,
        sink,
        text,
        shelves,
        gate,
    );
    drop(source);
    Ok(left)
}

// The number at a place among those of a field; 0 behind the last one.
fn number_at(field: &str, place: usize) -> Result<u64> {
    match field.split_whitespace().nth(place) {
        None => Ok(0),
        Some(word) => word.parse().ok().context("no number of a call"),
    }
}

// A shelf for each user, without an entry.
fn shelves_of(alloc: Global, outs: &str) -> Result<Vec<Scant<MemoryShelf>>>
    ensures { IfOk result (λ shelves. vec_len shelves ≡ most_users) }
{
    let mut shelves = Vec::new(alloc);
    for made in 0..USER_LIMIT {
        let out_at = number_at(outs, made)?;
        let shelf = MemoryShelf::new(alloc, CallNumbers::new(alloc));
        shelves.push(Scant::new(shelf, out_at))?;
    }
    Ok(shelves)
}

// What the program ends with over these devices, and a clock without readings.
fn finished<R: Threads + Wait + Sync>(
    threads: &R,
    alloc: Global,
    words: &[String],
    source: &mut MemorySource,
    sink: &mut MemorySink,
    text: Scant<MemoryText>,
    shelves: Vec<Scant<MemoryShelf>>,
    gate: &Meeting,
) -> Left
    requires { vec_len shelves ≡ most_users }
{
    let clock = MemoryClock::new(List::new(alloc), CallNumbers::new(alloc));
    let Finish {
        status,
        text,
        clock,
        shelves,
    } = aplsv(
        threads, alloc, words, source, sink, text, clock, shelves, gate,
    );
    drop(clock);
    Left {
        status,
        text,
        shelves,
    }
}

// How it ended, and what came to the devices.
fn told(alloc: Global, left: Left, came: u64, is_written: bool) -> Result<String> {
    let calls = calls_text(alloc, &left);
    let code = left.status.code();
    drop(left);
    let calls = calls?;
    let output = if is_written { "output" } else { "no output" };
    Ok(format!(in alloc; "status {code} ¦ {output} ¦ {came} came ¦ {calls}")?)
}

// The devices that were called, each with how often, or `-`.
fn calls_text(alloc: Global, left: &Left) -> Result<String> {
    let mut text = String::new(alloc);
    for (at, shelf) in left.shelves.iter().enumerate() {
        let number = at.saturating_add(1);
        let name = format!(in alloc; "shelf {number}")?;
        push_calls(&mut text, name.as_str(), shelf.calls)?;
    }
    push_calls(&mut text, "text", left.text.calls)?;
    if text.is_empty() {
        text.push('-')?;
    }
    Ok(text)
}

// Adds a device that was called.
fn push_calls(text: &mut String, device: &str, calls: u64) -> Result<()> {
    if calls == 0 {
        return Ok(());
    }
    if !text.is_empty() {
        text.push_str(", ")?;
    }
    write!(text, "{device}: {calls}")?;
    Ok(())
}
