use crate::case::{Case, Device};
use crate::ending::ending_of;
use crate::files::StoredCase;
use crate::run::run;
use anyhow::{Context, Result, bail};
use std::alloc::Global;
use std::sync::Wait;
use std::thread::Threads;

// A device by its words, the most bytes of a call and the number of the call that fails.
fn device_of(words: &str) -> Option<Device> {
    let (piece, fails) = words.split_once(" ")?;
    Some(Device {
        piece: piece.parse().ok()?,
        fails: fails.parse().ok()?,
    })
}

// A source, a sink, and what the sink has room for, with commas between.
fn devices_of(words: &str) -> Option<(Device, Device, usize)> {
    let (source, rest) = words.split_once(", ")?;
    let (sink, room) = rest.split_once(", ")?;
    Some((device_of(source)?, device_of(sink)?, room.parse().ok()?))
}

fn case_over<'a>(stored: &'a StoredCase, devices: &str) -> Option<Case<'a>> {
    let (source, sink, room) = devices_of(devices)?;
    Some(Case {
        source,
        sink,
        room,
        ..stored.case()
    })
}

// How many bytes are written of an output.
fn written_text(alloc: Global, output: &[u8], written: &[u8]) -> Result<String> {
    let count = written.len();
    Ok(if output.get(..count) == Some(written) {
        format!(in alloc; "{count}")?
    } else {
        String::from_str(alloc, "another output")?
    })
}

/// Stored cases over devices that give and take pieces, fail or are full: the case, and the devices; the ending, and how many
/// bytes of the output are written.
pub fn faulty<R: Threads + Wait + Sync>(
    rt: &HostRuntime,
    threads: &R,
    alloc: Global,
    fields: &[&str],
) -> Result<String> {
    let [name, devices, ..] = fields else {
        bail!("a case and devices are wanted");
    };
    let stored = StoredCase::read(rt, *name)?;
    let ended = run(
        threads,
        alloc,
        &case_over(&stored, *devices).context("no devices")?,
    )?;
    let ending = ending_of(alloc, &ended)?;
    let written = written_text(alloc, stored.wanted()?.written, &ended.written)?;
    Ok(format!(in alloc; "{ending} ¦ {written}")?)
}
