ghost use Rattle.std.specs.Prelude.{◌≡◌, IfOk, vec_len};
ghost use Rattle.apl_arrays.specs.Limits.{most_users};

use crate::case::{Case, Device};
use crate::gates::Meeting;
use anyhow::Result;
use apl_arrays::{Bytes, FileList, List, USER_LIMIT, WantOfMemory};
use apl_io::{CallNumbers, MemoryClock, MemoryShelf, MemorySink, MemorySource, MemoryText};
use aplsv_look::{LookStatus, aplsv_look_words};
use aplsv_top::{Status, aplsv, aplsv_check_words};
use std::alloc::Global;
use std::sync::Wait;
use std::thread::Threads;

/// How a run ended: its exit status, its text on standard error, and the bytes that it wrote.
#[derive(Debug, Drop)]
pub struct ProgramEnd {
    pub code: u8,
    pub told: String,
    pub written: Vec<u8>,
}

fn numbers(alloc: Global, call: u64) -> Result<CallNumbers, WantOfMemory> {
    let mut numbers = CallNumbers::new(alloc);
    if call > 0 {
        numbers.push(call)?;
    }
    Ok(numbers)
}

/// The words of lines, one a line.
pub fn words_of(alloc: Global, lines: &str) -> Result<Vec<String>, WantOfMemory> {
    let mut words = Vec::new(alloc);
    for line in lines.lines() {
        words.push(String::from_str(alloc, line)?)?;
    }
    Ok(words)
}

// A shelf for each user, without an entry.
fn shelves(alloc: Global) -> Result<Vec<MemoryShelf>, WantOfMemory>
    ensures { IfOk result (λ shelves. vec_len shelves ≡ most_users) }
{
    let mut shelves = Vec::new(alloc);
    for _made in 0..USER_LIMIT {
        shelves.push(MemoryShelf::new(alloc, CallNumbers::new(alloc)))?;
    }
    Ok(shelves)
}

// What the program ends with over these words, source and sink, past a gate, and over no file, no reading and empty shelves,
// where no check is asked for.
fn finished<R: Threads + Wait + Sync>(
    threads: &R,
    alloc: Global,
    words: &[String],
    source: &mut MemorySource,
    sink: &mut MemorySink,
    gate: &Meeting,
) -> Result<Status, WantOfMemory> {
    let shelves = shelves(alloc)?;
    let text = MemoryText::new(alloc, FileList::new(alloc), CallNumbers::new(alloc));
    let clock = MemoryClock::new(List::new(alloc), CallNumbers::new(alloc));
    let finish = aplsv(
        threads, alloc, words, source, sink, text, clock, shelves, gate,
    );
    let status = finish.status;
    drop(finish);
    Ok(status)
}

// Whether a check is asked for.
fn asks_check(words: &[String]) -> bool {
    words.iter().any(|word| word.as_str() == "--check")
}

// What the program ends with over these words, source and sink, past a gate.
fn ended_over<R: Threads + Wait + Sync>(
    threads: &R,
    alloc: Global,
    words: &[String],
    source: &mut MemorySource,
    sink: &mut MemorySink,
    gate: &Meeting,
) -> Result<Status, WantOfMemory> {
    if asks_check(words) {
        Ok(aplsv_check_words(alloc, words, source, sink))
    } else {
        finished(threads, alloc, words, source, sink, gate)
    }
}

/// How a run ended that left these bytes written.
pub fn ended_as(alloc: Global, status: Status, written: &[u8]) -> Result<ProgramEnd, WantOfMemory> {
    if status == Status::WantOfMemory {
        return Err(WantOfMemory);
    }
    let told = status.to_string(alloc)?;
    let written = Vec::from_slice(alloc, written)?;
    Ok(ProgramEnd {
        code: status.code(),
        told,
        written,
    })
}

// How a look ended, where the words ask for one.
fn looked_over(
    alloc: Global,
    words: &[String],
    source: &mut MemorySource,
    sink: &mut MemorySink,
) -> Result<Option<ProgramEnd>, WantOfMemory> {
    match aplsv_look_words(alloc, words, source, sink) {
        LookStatus::Usage => Ok(None),
        LookStatus::WantOfMemory => Err(WantOfMemory),
        status => {
            let told = status.to_string(alloc)?;
            let written = Vec::from_slice(alloc, sink.bytes())?;
            Ok(Some(ProgramEnd {
                code: status.code(),
                told,
                written,
            }))
        }
    }
}

// How a run or a check ended.
fn ran_over<R: Threads + Wait + Sync>(
    threads: &R,
    alloc: Global,
    words: &[String],
    source: &mut MemorySource,
    sink: &mut MemorySink,
    gate: &Meeting,
) -> Result<ProgramEnd, WantOfMemory> {
    let status = ended_over(threads, alloc, words, source, sink, gate)?;
    ended_as(alloc, status, sink.bytes())
}

// A run into a sink of its own.
fn run_into_sink<R: Threads + Wait + Sync>(
    threads: &R,
    alloc: Global,
    case: &Case<'_>,
    words: &[String],
    source: &mut MemorySource,
    gate: &Meeting,
) -> Result<ProgramEnd, WantOfMemory> {
    let Device { piece, fails } = case.sink;
    let mut sink = MemorySink::new(alloc, case.room, piece.max(1), numbers(alloc, fails)?)?;
    let ended = match looked_over(alloc, words, source, &mut sink) {
        Ok(Some(ended)) => Ok(ended),
        Ok(None) => ran_over(threads, alloc, words, source, &mut sink, gate),
        Err(WantOfMemory) => Err(WantOfMemory),
    };
    drop(sink);
    ended
}

fn run_once<R: Threads + Wait + Sync>(
    threads: &R,
    alloc: Global,
    case: &Case<'_>,
    gate: &Meeting,
) -> Result<ProgramEnd, WantOfMemory> {
    let words = words_of(alloc, case.words)?;
    let input = Bytes::from(Vec::from_slice(alloc, case.input)?);
    let Device { piece, fails } = case.source;
    let mut source = MemorySource::new(input, piece.max(1), numbers(alloc, fails)?);
    let ended = run_into_sink(threads, alloc, case, &words, &mut source, gate);
    drop(source);
    ended
}

/// Runs a case, once more where memory was refused.
pub fn run<R: Threads + Wait + Sync>(
    threads: &R,
    alloc: Global,
    case: &Case<'_>,
) -> Result<ProgramEnd> {
    run_past(threads, alloc, case, &Meeting::of(0))
}

/// Runs a case past a gate, once more where memory was refused; then the gate has forgotten who came to it before.
pub fn run_past<R: Threads + Wait + Sync>(
    threads: &R,
    alloc: Global,
    case: &Case<'_>,
    gate: &Meeting,
) -> Result<ProgramEnd> {
    match run_once(threads, alloc, case, gate) {
        Err(WantOfMemory) => {
            gate.reset();
            Ok(run_once(threads, alloc, case, gate)?)
        }
        Ok(ended) => Ok(ended),
    }
}
