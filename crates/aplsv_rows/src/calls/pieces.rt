use crate::calls::failing::failing_at;
use anyhow::Result;
use apl_io::{
    Bytes, CallNumbers, Failed, MemorySink, MemorySource, ReadRefused, Sink, Source, WriteFault,
    read_all, write_all,
};
use case_tables::{Calls, Looks};
use std::alloc::Global;

/// Sources and sinks in memory that give and take pieces and fail at the calls that they are told, texts that are read and
/// written whole over them, and how their faults are named.
#[derive(Clone, Copy, Debug)]
pub struct Pieces;

// The greatest piece of a call, the limit, and the number of the call that fails.
#[derive(Clone, Copy, Debug)]
struct Reading {
    piece: usize,
    limit: usize,
    fails: u64,
}

// How a source was read, and how many faults it counts then.
#[derive(Drop)]
struct Outcome {
    found: Result<Bytes, ReadRefused>,
    faults: u64,
}

// A source of these bytes, which fails at that call.
fn source_of(alloc: Global, bytes: &[u8], piece: usize, fails: u64) -> Result<MemorySource> {
    let bytes = Bytes::from(Vec::from_slice(alloc, bytes)?);
    Ok(MemorySource::new(bytes, piece.max(1), failing_at(alloc, fails)?))
}

// How a source was read: as wanted, or otherwise, or memory ran out, which is no fault of it.
#[derive(Clone, Copy, Debug, PartialEq, Eq)]
enum Read {
    AsWanted,
    Otherwise,
    Wanting,
}

// Such a source is read.
fn read_once(alloc: Global, bytes: &[u8], reading: Reading) -> Result<Outcome> {
    let mut source = source_of(alloc, bytes, reading.piece, reading.fails)?;
    let found = read_all(alloc, &mut source, reading.limit);
    let faults = source.faults();
    Ok(Outcome { found, faults })
}

fn is_wanting(outcome: &Outcome) -> bool {
    match outcome.found {
        Err(ReadRefused::WantOfMemory) => true,
        _ => false,
    }
}

// Whether all bytes came, or the source was refused for this reason. A fault is counted where it failed.
fn is_as_wanted(outcome: &Outcome, wanted: Result<&[u8], ReadRefused>) -> bool {
    match (&outcome.found, wanted) {
        (Ok(bytes), Ok(all)) => bytes.as_slice() == all && outcome.faults == 0,
        (Err(ReadRefused::ReadFault), Err(ReadRefused::ReadFault)) => outcome.faults == 1,
        (Err(ReadRefused::TooLong), Err(ReadRefused::TooLong)) => outcome.faults == 0,
        _ => false,
    }
}

// How a source was read, beside what is wanted.
fn compared(outcome: Outcome, wanted: Result<&[u8], ReadRefused>) -> Read {
    let read = if is_as_wanted(&outcome, wanted) {
        Read::AsWanted
    } else if is_wanting(&outcome) && outcome.faults == 0 {
        Read::Wanting
    } else {
        Read::Otherwise
    };
    drop(outcome);
    read
}

// Reads such a source, and once more where memory ran out.
fn reads(
    alloc: Global,
    looks: &mut Looks,
    bytes: &[u8],
    reading: Reading,
    wanted: Result<&[u8], ReadRefused>,
) -> Result<()> {
    let mut read = compared(read_once(alloc, bytes, reading)?, wanted);
    if read == Read::Wanting {
        read = compared(read_once(alloc, bytes, reading)?, wanted);
    }
    looks.holds(read == Read::AsWanted);
    Ok(())
}

// The greatest piece of a call, the limit, the number of the call that fails, and why it is refused, if it is.
const READS: [(usize, usize, u64, Option<ReadRefused>); 11] = [
    (9, 5, 0, None),
    (9, 4, 0, Some(ReadRefused::TooLong)),
    (9, 0, 0, Some(ReadRefused::TooLong)),
    (9, usize::MAX, 0, None),
    (1, 5, 0, None),
    (1, 4, 0, Some(ReadRefused::TooLong)),
    (9, 5, 1, Some(ReadRefused::ReadFault)),
    (9, 5, 2, Some(ReadRefused::ReadFault)),
    (1, 5, 6, Some(ReadRefused::ReadFault)),
    (1, 5, 7, None),
    (1, 4, 6, Some(ReadRefused::TooLong)),
];

fn reads_short(alloc: Global, looks: &mut Looks) -> Result<()> {
    for (piece, limit, fails, refused) in READS {
        let wanted = match refused {
            None => Ok(b"hello".as_slice()),
            Some(refused) => Err(refused),
        };
        let reading = Reading {
            piece,
            limit,
            fails,
        };
        reads(alloc, looks, b"hello", reading, wanted)?;
    }
    let nothing = Reading {
        piece: 1,
        limit: 0,
        fails: 0,
    };
    reads(alloc, looks, b"", nothing, Ok(b"".as_slice()))
}

// More bytes than are read at once.
fn reads_long(alloc: Global, looks: &mut Looks) -> Result<()> {
    let mut long = Vec::new(alloc);
    for place in 0..10_000u64 {
        long.push((place % 251) as u8)?;
    }
    for (piece, limit) in [(10_000, 10_000), (4_097, 10_000), (10_000, 9_999)] {
        let wanted = if limit < 10_000 {
            Err(ReadRefused::TooLong)
        } else {
            Ok(long.as_slice())
        };
        let reading = Reading {
            piece,
            limit,
            fails: 0,
        };
        reads(alloc, looks, &long, reading, wanted)?;
    }
    Ok(())
}

// The room, the greatest piece of a call, the number of the call that fails, the bytes to be written, and how many of
// them are.
const WRITES: [(usize, usize, u64, &str, usize); 9] = [
    (64, 64, 0, "hello, world", 12),
    (12, 1, 0, "hello, world", 12),
    (64, 7, 2, "hello, world", 7),
    (64, 7, 3, "hello, world", 12),
    (64, 7, 1, "hello, world", 0),
    (0, 7, 0, "hello, world", 0),
    (11, 7, 0, "hello, world", 11),
    (0, 7, 1, "", 0),
    (3, 1, 4, "abc", 3),
];

// Writes bytes, of which the sink then holds so many, and counts a fault where these are not all.
fn writes(looks: &mut Looks, sink: &mut MemorySink, bytes: &[u8], count: usize) {
    let wanted = if count == bytes.len() {
        Ok(())
    } else {
        Err(WriteFault)
    };
    looks.holds(write_all(sink, bytes) == wanted);
    looks.holds(sink.bytes() == &bytes[..count.min(bytes.len())]);
    looks.holds(sink.faults() == u64::from(wanted.is_err()));
}

fn writes_texts(alloc: Global, looks: &mut Looks) -> Result<()> {
    for (room, piece, fails, text, count) in WRITES {
        let fails = failing_at(alloc, fails)?;
        let mut sink = MemorySink::new(alloc, room, piece.max(1), fails)?;
        writes(looks, &mut sink, text.as_bytes(), count);
    }
    Ok(())
}

fn numbers_ascend(alloc: Global, looks: &mut Looks) -> Result<()> {
    let mut numbers = CallNumbers::new(alloc);
    numbers.reserve(2)?;
    looks.holds(numbers.push(2).is_ok());
    looks.holds(numbers.push(5).is_ok());
    looks.holds(numbers.as_slice() == [2, 5].as_slice());
    looks.holds(numbers.into_vec().as_slice() == [2, 5].as_slice());
    Ok(())
}

fn gives_pieces(alloc: Global, looks: &mut Looks) -> Result<()> {
    let mut source = source_of(alloc, b"hello", 3, 2)?;
    let mut buffer = [b'-'; 4];
    looks.holds(source.read(&mut buffer) == Ok(3));
    looks.holds(buffer == *b"hel-");
    looks.holds(source.read(&mut buffer) == Err(Failed));
    looks.holds(buffer == *b"hel-");
    looks.holds(source.read(&mut buffer) == Ok(2));
    looks.holds(buffer == *b"lol-");
    looks.holds(source.read(&mut buffer) == Ok(0));
    looks.holds(source.faults() == 1);
    Ok(())
}

fn faults_are_named(alloc: Global, looks: &mut Looks) -> Result<()> {
    for (refused, text) in [
        (ReadRefused::ReadFault, "the source failed"),
        (ReadRefused::TooLong, "the source has too many bytes"),
        (ReadRefused::WantOfMemory, "out of memory"),
    ] {
        looks.holds(refused.to_string(alloc)?.as_str() == text);
    }
    looks.holds(WriteFault.to_string(alloc)?.as_str() == "the sink failed");
    looks.holds(Failed.to_string(alloc)?.as_str() == "the call failed");
    Ok(())
}

impl Calls for Pieces {
    fn make(&self, alloc: Global, looks: &mut Looks) -> Result<()> {
        reads_short(alloc, looks)?;
        reads_long(alloc, looks)?;
        writes_texts(alloc, looks)?;
        numbers_ascend(alloc, looks)?;
        gives_pieces(alloc, looks)?;
        faults_are_named(alloc, looks)
    }
}
