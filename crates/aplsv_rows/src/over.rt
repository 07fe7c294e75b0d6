ghost use Rattle.std.specs.Prelude.{◌≡◌, vec_len};
ghost use Rattle.apl_arrays.specs.Limits.{most_users};

use crate::case::{ROOM, SOUND};
use crate::ending::ending_of;
use crate::handed::{Devices, Handed};
use crate::run::{ended_as, words_of};
use anyhow::{Result, bail};
use apl_arrays::{Bytes, USER_LIMIT};
use apl_io::{CallNumbers, MemorySink, MemorySource};
use aplsv_top::{Finish, Status, aplsv_replay_words};
use case_tables::{Trial, bytes_of};
use std::alloc::Global;
use std::str;

/// Bundles one after another over devices that are handed in: the words, what the devices are, and the bundles; how the last
/// ends, which devices were told a place or called, and what is written of all.
#[derive(Clone, Copy, Debug)]
pub struct Over;

impl Trial for Over {
    fn given(&self) -> usize {
        7
    }

    fn found(&self, alloc: Global, fields: &[&str]) -> Result<String> {
        let [
            words,
            shelf_fails,
            file,
            text_fails,
            readings,
            clock_fails,
            bundles,
            ..
        ] = fields
        else {
            bail!("words, devices and bundles are wanted");
        };
        let devices = Devices {
            shelf_fails: *shelf_fails,
            file: *file,
            text_fails: *text_fails,
            readings: *readings,
            clock_fails: *clock_fails,
        };
        let words = bytes_of(alloc, *words)?;
        let words = words_of(alloc, str::from_utf8(&words)?)?;
        let fails = CallNumbers::new(alloc);
        let mut sink = MemorySink::new(alloc, ROOM, SOUND.piece, fails)?;
        let left = run_each(alloc, &words, *bundles, &mut sink, devices.made(alloc)?)?;
        told(alloc, left, sink.bytes())
    }
}

// How the last of several runs ended, and the devices as it left them.
#[derive(Debug, Drop)]
struct Left {
    status: Status,
    handed: Handed,
}

// Runs bundles one after another over the same devices and into the same sink.
fn run_each(
    alloc: Global,
    words: &[String],
    bundles: &str,
    sink: &mut MemorySink,
    handed: Handed,
) -> Result<Left> {
    let mut status = Status::Done;
    let mut handed = handed;
    for bundle in bundles.split(" ⋄ ") {
        let Left {
            status: ended,
            handed: after,
        } = run_next(alloc, words, bundle, sink, handed)?;
        status = ended;
        handed = after;
    }
    Ok(Left { status, handed })
}

fn run_next(
    alloc: Global,
    words: &[String],
    bundle: &str,
    sink: &mut MemorySink,
    handed: Handed,
) -> Result<Left> {
    match source_of(alloc, bundle) {
        Ok(source) => run_from(alloc, words, source, sink, handed),
        Err(error) => {
            drop(handed);
            Err(error)
        }
    }
}

/// A source that gives what a text with escapes says.
pub fn source_of(alloc: Global, text: &str) -> Result<MemorySource> {
    let bytes = Bytes::from(bytes_of(alloc, text)?);
    Ok(MemorySource::new(bytes, SOUND.piece, CallNumbers::new(alloc)))
}

// One run, after which there is a shelf for each user still.
fn run_from(
    alloc: Global,
    words: &[String],
    source: MemorySource,
    sink: &mut MemorySink,
    handed: Handed,
) -> Result<Left> {
    let mut source = source;
    if handed.shelves.len() != USER_LIMIT {
        drop(source);
        drop(handed);
        bail!("not all shelves came back");
    }
    let left = finished(alloc, words, &mut source, sink, handed);
    drop(source);
    if left.status == Status::WantOfMemory {
        drop(left);
        bail!("out of memory");
    }
    Ok(left)
}

fn finished(
    alloc: Global,
    words: &[String],
    source: &mut MemorySource,
    sink: &mut MemorySink,
    handed: Handed,
) -> Left
    requires { vec_len handed.shelves ≡ most_users }
{
    let Handed {
        text,
        clock,
        shelves,
    } = handed;
    let Finish {
        status,
        text,
        clock,
        shelves,
    } = aplsv_replay_words(alloc, words, source, sink, text, clock, shelves);
    Left {
        status,
        handed: Handed {
            text,
            clock,
            shelves,
        },
    }
}

fn told(alloc: Global, left: Left, written: &[u8]) -> Result<String> {
    let noted = noted_text(alloc, &left.handed);
    let status = left.status;
    drop(left);
    let noted = noted?;
    let ending = ending_of(alloc, &ended_as(alloc, status, written)?)?;
    let output = str::from_utf8(written)?;
    Ok(format!(in alloc; "{ending} ¦ {noted} ¦ {output}")?)
}

// The devices that were told a place or called, each with how often, or `-`.
fn noted_text(alloc: Global, handed: &Handed) -> Result<String> {
    let mut text = String::new(alloc);
    for (at, shelf) in handed.shelves.iter().enumerate() {
        let number = at.saturating_add(1);
        let name = format!(in alloc; "shelf {number}")?;
        push_note(&mut text, name.as_str(), shelf.places, shelf.calls)?;
    }
    push_note(&mut text, "text", handed.text.places, handed.text.calls)?;
    push_note(&mut text, "clock", handed.clock.places, handed.clock.calls)?;
    if text.is_empty() {
        text.push('-')?;
    }
    Ok(text)
}

// Adds a device that was told a place or called.
fn push_note(text: &mut String, device: &str, places: u64, calls: u64) -> Result<()> {
    if places == 0 && calls == 0 {
        return Ok(());
    }
    if !text.is_empty() {
        text.push_str(", ")?;
    }
    write!(text, "{device}: {places} {calls}")?;
    Ok(())
}
