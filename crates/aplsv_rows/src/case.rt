use crate::run::{ProgramEnd, run};
use anyhow::Result;
use std::alloc::{AllocError, Global};
use std::sync::Wait;
use std::thread::Threads;

/// How much a call of a device gives or takes at most, and the number of the call that fails; 0 where none does.
#[derive(Clone, Copy, Debug)]
pub struct Device {
    pub piece: usize,
    pub fails: u64,
}

/// A device without faults that works in large pieces.
pub const SOUND: Device = Device {
    piece: 4096,
    fails: 0,
};

/// What a sink has room for where nothing else is said.
pub const ROOM: usize = 9_437_184;

/// What the program is given: its words, one a line, the bytes of its input, and how its devices work.
#[derive(Clone, Copy, Debug)]
pub struct Case<'a> {
    pub words: &'a str,
    pub input: &'a [u8],
    pub source: Device,
    pub sink: Device,
    pub room: usize,
}

/// How a run is to end: its exit status, its text on standard error, and its whole output.
#[derive(Clone, Copy, Debug)]
pub struct Wanted<'a> {
    pub code: u8,
    pub told: &'a str,
    pub written: &'a [u8],
}

/// A case of these words and bytes over sound devices.
pub fn sound_case<'a>(words: &'a str, input: &'a [u8]) -> Case<'a> {
    Case {
        words,
        input,
        source: SOUND,
        sink: SOUND,
        room: ROOM,
    }
}

// The first byte at which two outputs differ.
fn first_difference(one: &[u8], other: &[u8]) -> usize {
    let most = one.len().min(other.len());
    one.iter()
        .zip(other)
        .position(|(a, b)| a != b)
        .unwrap_or(most)
}

// What differs between how a run ended and how it was to end.
fn difference(
    alloc: Global,
    ended: &ProgramEnd,
    wanted: &Wanted<'_>,
) -> Result<Option<String>, AllocError> {
    let (code, told) = (ended.code, ended.told.as_str());
    if code != wanted.code || told != wanted.told {
        let (other, text) = (wanted.code, wanted.told);
        return Ok(Some(format!(in alloc; "status {code} `{told}`, and not {other} `{text}`")?));
    }
    if ended.written.as_slice() != wanted.written {
        let at = first_difference(&ended.written, wanted.written);
        return Ok(Some(format!(in alloc; "the output differs from byte {at} on")?));
    }
    Ok(None)
}

/// What differs between how a case ends and how it is to end; nothing where nothing does.
pub fn difference_of<R: Threads + Wait + Sync>(
    threads: &R,
    alloc: Global,
    case: &Case<'_>,
    wanted: &Wanted<'_>,
) -> Result<Option<String>> {
    let ended = run(threads, alloc, case)?;
    Ok(difference(alloc, &ended, wanted)?)
}
