ghost use Rattle.std.specs.Prelude.{◌≡◌, IfOk, vec_len};
ghost use Rattle.apl_arrays.specs.Limits.{most_users};

use crate::dawdling::Dawdling;
use anyhow::{Result, bail};
use apl_arrays::{Bytes, FileList, List, USER_LIMIT, WantOfMemory};
use apl_io::{CallNumbers, MemoryClock, MemoryShelf, MemorySink, MemorySource, MemoryText};
use aplsv_top::{Status, aplsv, aplsv_replay_words};
use std::alloc::Global;
use std::sync::Wait;
use std::thread::Threads;

/// What a sink has room for.
const ROOM: usize = 4_194_304;

/// How much a call of a source or a sink gives or takes.
const PIECE: usize = 4096;

// A shelf for each user, without an entry.
fn shelves(alloc: Global) -> Result<Vec<MemoryShelf>, WantOfMemory>
    ensures { IfOk result (λ shelves. vec_len shelves ≡ most_users) }
{
    let mut shelves = Vec::new(alloc);
    for _made in 0..USER_LIMIT {
        shelves.push(MemoryShelf::new(alloc, CallNumbers::new(alloc)))?;
    }
    Ok(shelves)
}

fn source_of(alloc: Global, bundle: &str) -> Result<MemorySource, WantOfMemory> {
    let bytes = Bytes::from(Vec::from_slice(alloc, bundle.as_bytes())?);
    Ok(MemorySource::new(bytes, PIECE, CallNumbers::new(alloc)))
}

// What was written of a run that is done.
fn written(alloc: Global, status: Status, sink: &MemorySink) -> Result<Vec<u8>> {
    if status != Status::Done {
        let code = status.code();
        bail!("status {code}");
    }
    Ok(Vec::from_slice(alloc, sink.bytes())?)
}

// The words of a run on threads by so many workers.
fn words_for(alloc: Global, workers: u64) -> Result<Vec<String>> {
    let mut words = Vec::new(alloc);
    words.push(String::from_str(alloc, "--workers")?)?;
    words.push(format!(in alloc; "{workers}")?)?;
    Ok(words)
}

// How a bundle ends that is run on threads into a sink.
fn on_threads<R: Threads + Wait + Sync>(
    threads: &R,
    alloc: Global,
    words: &[String],
    source: &mut MemorySource,
    sink: &mut MemorySink,
    gate: &Dawdling,
) -> Result<Status, WantOfMemory> {
    let shelves = shelves(alloc)?;
    let text = MemoryText::new(alloc, FileList::new(alloc), CallNumbers::new(alloc));
    let clock = MemoryClock::new(List::new(alloc), CallNumbers::new(alloc));
    let finish = aplsv(
        threads, alloc, words, source, sink, text, clock, shelves, gate,
    );
    let status = finish.status;
    drop(finish);
    Ok(status)
}

// And one that is replayed.
fn in_turns(
    alloc: Global,
    words: &[String],
    source: &mut MemorySource,
    sink: &mut MemorySink,
) -> Result<Status, WantOfMemory> {
    let shelves = shelves(alloc)?;
    let text = MemoryText::new(alloc, FileList::new(alloc), CallNumbers::new(alloc));
    let clock = MemoryClock::new(List::new(alloc), CallNumbers::new(alloc));
    let finish = aplsv_replay_words(alloc, words, source, sink, text, clock, shelves);
    let status = finish.status;
    drop(finish);
    Ok(status)
}

/// What is written of a bundle that is run on threads by so many workers, past a gate.
pub fn threaded<R: Threads + Wait + Sync>(
    threads: &R,
    alloc: Global,
    bundle: &str,
    workers: u64,
    gate: &Dawdling,
) -> Result<Vec<u8>> {
    let words = words_for(alloc, workers)?;
    let mut sink = MemorySink::new(alloc, ROOM, PIECE, CallNumbers::new(alloc))?;
    let mut source = source_of(alloc, bundle)?;
    let status = on_threads(threads, alloc, &words, &mut source, &mut sink, gate)?;
    written(alloc, status, &sink)
}

/// What is written of its replay.
pub fn replayed(alloc: Global, bundle: &str) -> Result<Vec<u8>> {
    let mut words = Vec::new(alloc);
    words.push(String::from_str(alloc, "--replay")?)?;
    let mut sink = MemorySink::new(alloc, ROOM, PIECE, CallNumbers::new(alloc))?;
    let mut source = source_of(alloc, bundle)?;
    let status = in_turns(alloc, &words, &mut source, &mut sink)?;
    written(alloc, status, &sink)
}
