ghost use Rattle.std.specs.Prelude.{◌≡◌, ◌+◌, ◌<◌, ◌≤◌, length, IfOk, IsErrOf, IsOk, IsOkUnless, OnOk, OnErr};
ghost use Rattle.std.specs.Io.KnownBytes.{Appends, ReadConsumes};
ghost use Rattle.apl_io.specs.Faults.{Rose};
ghost use Rattle.apl_io.specs.Whole.{AreAtMost, ReadsAll, TakesExactly, TakesAtMost, AppendsPrefix};
ghost use Rattle.apl_io.specs.declared.whole.ReadRefused.TheVariants.{ReadFault, WantOfMemory as OutOfMemory};

use crate::{Bytes, Failed, Sink, Source};
use std::alloc::{AllocError, Global};
use std::error::Error;
use std::fmt;

/// How many bytes are read at once.
const PIECE: usize = 4096;

/// Why a source was not read to its end: it failed, it gave one byte too many, or memory ran out.
#[derive(Clone, Copy, Debug, PartialEq, Eq)]
pub enum ReadRefused {
    ReadFault,
    TooLong,
    WantOfMemory,
}

impl From<Failed> for ReadRefused {
    ghost from_gives = { λ _ refused. refused ≡ ReadFault };

    fn from(_: Failed) -> Self {
        ReadRefused::ReadFault
    }
}

impl From<AllocError> for ReadRefused {
    ghost from_gives = { λ _ refused. refused ≡ OutOfMemory };

    fn from(_: AllocError) -> Self {
        ReadRefused::WantOfMemory
    }
}

impl fmt::Display for ReadRefused {
    fn fmt<W: fmt::Write>(&self, f: &mut fmt::Formatter<W>) -> fmt::Result {
        f.write_str(match self {
            ReadRefused::ReadFault => "the source failed",
            ReadRefused::TooLong => "the source has too many bytes",
            ReadRefused::WantOfMemory => "out of memory",
        })
    }
}

impl Error for ReadRefused {}

/// A sink failed before it had taken all bytes.
#[derive(Clone, Copy, Debug, PartialEq, Eq)]
pub struct WriteFault;

impl From<Failed> for WriteFault {
    fn from(_: Failed) -> Self {
        WriteFault
    }
}

impl fmt::Display for WriteFault {
    fn fmt<W: fmt::Write>(&self, f: &mut fmt::Formatter<W>) -> fmt::Result {
        f.write_str("the sink failed")
    }
}

impl Error for WriteFault {}

// Reads at most one byte more than there is room for into the front of the buffer.
fn read_front<S: Source>(source: &mut S, buffer: &mut [u8], room: usize) -> Result<usize, Failed>
    requires { 0 < length buffer.old }
    ensures count { IfOk result (λ count. count ≤ length buffer.new) }
    ensures most { IfOk result (λ count. count ≤ room + 1) }
    ensures bytes { ReadConsumes (S.left source.old) (S.left source.new) result buffer.new }
    ensures counted { S.faults source.old ≤ S.faults source.new }
    ensures cause { OnErr result (Rose (S.faults source.old) (S.faults source.new)) }
{
    if room < buffer.len() {
        source.read(&mut buffer[..room + 1])
    } else {
        source.read(buffer)
    }
}

/// Reads all bytes to the end of the source. It returns for every source, since each turn takes a byte or is the last.
/// `ReadFault` where the source failed, and `TooLong` where it gave one byte more than `limit`. It takes memory for
/// the bytes; where that runs out, the bytes taken so far are lost.
pub fn read_all<S: Source>(
    alloc: Global,
    source: &mut S,
    limit: usize,
) -> Result<Bytes, ReadRefused>
    ensures all { IfOk result (λ bytes. ReadsAll (S.left source.old) (S.left source.new) bytes.items) }
    ensures within { IfOk result (λ bytes. length bytes.items ≤ limit) }

    // It doesn't give up by itself: a fault is the source's own, and one byte too many was given.
    ensures fault { IsErrOf result ReadRefused.ReadFault → Rose (S.faults source.old) (S.faults source.new) }
    ensures too_long { IsErrOf result ReadRefused.TooLong → TakesExactly (S.left source.old) (S.left source.new) (limit + 1) }

    // Where the bytes left are told to be few enough, and the source doesn't fail, they all come if there is memory.
    ensures succeeds { AreAtMost (S.left source.old) limit → ¬ (Rose (S.faults source.old) (S.faults source.new))
        → IsOkUnless result ReadRefused.WantOfMemory }

    // Where it isn't too long, the bytes taken are within the limit.
    ensures taken { ¬ (IsErrOf result ReadRefused.TooLong) → TakesAtMost (S.left source.old) (S.left source.new) limit }
    ensures counted { S.faults source.old ≤ S.faults source.new }
{
    let mut buffer = [0; PIECE];
    let mut bytes = Vec::new(alloc);
    loop {
        let room = limit - bytes.len();
        let count = read_front(source, &mut buffer, room)?;
        if count == 0 {
            return Ok(Bytes::from(bytes));
        }
        if count > room {
            return Err(ReadRefused::TooLong);
        }
        bytes.extend_from_slice(&buffer[..count])?;
    }
}

/// Writes all the bytes, in order. It returns for every sink, since each turn writes a byte or is the last. `WriteFault`
/// where the sink failed, which then has taken a front part of them, perhaps none, not all.
pub fn write_all<W: Sink>(sink: &mut W, bytes: &[u8]) -> Result<(), WriteFault>
    ensures ok { OnOk result (Appends (W.held sink.old) (W.held sink.new) bytes.now) }
    ensures fault { OnErr result (Rose (W.faults sink.old) (W.faults sink.new)) }
    ensures front { OnErr result (AppendsPrefix (W.held sink.old) (W.held sink.new) bytes.now) }
    ensures counted { W.faults sink.old ≤ W.faults sink.new }

    // Without bytes nothing is called.
    ensures idle { length bytes.now ≡ 0 → sink.new ≡ sink.old }
    ensures idle_ok { length bytes.now ≡ 0 → IsOk result }
{
    let mut taken = 0;
    while taken < bytes.len() {
        taken += sink.write(&bytes[taken..])?;
    }
    Ok(())
}
