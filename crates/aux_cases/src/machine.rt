use anyhow::Result;
use apl_arrays::WantOfMemory;
use apl_io::{Clock, Failed, Sink, Source};
use aplsv_devices::{KEPT_LIMIT, StdSink, StdSource, SystemClock};
use case_tables::{Calls, Looks};
use std::alloc::Global;
use std::io::{self, ErrorKind, Read, Write};
use std::time::{self, Duration};

/// Calls of the standard streams and of the clock, over what is made for the cases, and over the machine's own clock.
#[derive(Clone, Copy)]
pub struct Machine {
    pub rt: HostRuntime,
}

// It fails at each call.
#[derive(Clone, Copy)]
struct Broken;

// It takes nothing.
#[derive(Clone, Copy)]
struct Stuck;

// It gives bytes without end.
#[derive(Clone, Copy)]
struct Endless;

// A clock that stands still, or that can't be read.
#[derive(Clone, Copy)]
struct Still(Option<Duration>);

impl Read for Broken {
    fn read(&mut self, _buf: &mut [u8]) -> io::Result<usize> {
        Err(io::Error::from(ErrorKind::BrokenPipe))
    }
}

impl Read for Endless {
    fn read(&mut self, buf: &mut [u8]) -> io::Result<usize> {
        Ok(buf.len())
    }
}

impl Write for Broken {
    fn write(&mut self, _buf: &[u8]) -> io::Result<usize> {
        Err(io::Error::from(ErrorKind::BrokenPipe))
    }

    fn flush(&mut self) -> io::Result<()> {
        Ok(())
    }
}

impl Write for Stuck {
    fn write(&mut self, _buf: &[u8]) -> io::Result<usize> {
        Ok(0)
    }

    fn flush(&mut self) -> io::Result<()> {
        Ok(())
    }
}

impl time::Clock for Still {
    fn monotonic(&self) -> io::Result<Duration> {
        Err(io::Error::from(ErrorKind::Unsupported))
    }

    fn since_1970(&self) -> io::Result<Duration> {
        match self.0 {
            Some(duration) => Ok(duration),
            None => Err(io::Error::from(ErrorKind::Unsupported)),
        }
    }
}

// Whether a source kept these bytes. An error where memory for them was refused.
fn kept_these(kept: Option<&[u8]>, bytes: &[u8]) -> Result<bool, WantOfMemory> {
    match kept {
        Some(kept) => Ok(kept == bytes),
        None => Err(WantOfMemory),
    }
}

// A source gives what its reader gives, to its end, and keeps it.
fn source_gives(alloc: Global, looks: &mut Looks) -> Result<(), WantOfMemory> {
    let mut source = StdSource::new(alloc, b"abc".as_slice());
    let mut buffer = [0; 2];
    looks.holds(kept_these(source.kept(), b"".as_slice())?);
    looks.holds(source.read(&mut buffer) == Ok(2));
    looks.holds(buffer == [b'a', b'b']);
    looks.holds(kept_these(source.kept(), b"ab".as_slice())?);
    looks.holds(source.read(&mut buffer) == Ok(1));
    looks.holds(source.read(&mut buffer) == Ok(0));
    looks.holds(source.faults() == 0);
    looks.holds(kept_these(source.kept(), b"abc".as_slice())?);
    Ok(())
}

// A source whose reader fails counts that.
fn source_fails(alloc: Global, looks: &mut Looks) {
    let mut source = StdSource::new(alloc, Broken);
    let mut buffer = [0; 2];
    looks.holds(source.read(&mut buffer) == Err(Failed));
    looks.holds(source.read(&mut buffer) == Err(Failed));
    looks.holds(source.faults() == 2);
}

// A source keeps as much as a bundle may have, and with one byte more nothing.
fn source_keeps(alloc: Global, looks: &mut Looks) -> Result<(), WantOfMemory> {
    let mut source = StdSource::new(alloc, Endless);
    let mut buffer = Vec::new(alloc);
    buffer.resize(KEPT_LIMIT, 0)?;
    looks.holds(source.read(buffer.as_mut_slice()) == Ok(KEPT_LIMIT));
    looks.holds(kept_these(source.kept(), &buffer)?);
    looks.holds(source.read(&mut buffer.as_mut_slice()[..1]) == Ok(1));
    looks.holds(source.kept().is_none());
    looks.holds(source.faults() == 0);
    Ok(())
}

// A sink hands on what its writer takes, and counts that it fails or takes nothing.
fn sink_takes(looks: &mut Looks) {
    let mut held = [0; 3];
    {
        let mut sink = StdSink::new(held.as_mut_slice());
        looks.holds(sink.write(b"ab".as_slice()) == Ok(2));
        looks.holds(sink.faults() == 0);
    }
    looks.holds(held == [b'a', b'b', 0]);
    let mut stuck = StdSink::new(Stuck);
    looks.holds(stuck.write(b"ab".as_slice()) == Err(Failed));
    looks.holds(stuck.faults() == 1);
    let mut broken = StdSink::new(Broken);
    looks.holds(broken.write(b"ab".as_slice()) == Err(Failed));
    looks.holds(broken.write(b"ab".as_slice()) == Err(Failed));
    looks.holds(broken.faults() == 2);
}

// A clock gives whole seconds since 1970, and counts what it can't give.
fn clock_reads(looks: &mut Looks) {
    let mut clock = SystemClock::new(Still(Some(Duration::from_millis(5_900))));
    looks.holds(clock.reading() == Ok(5));
    looks.holds(clock.reading() == Ok(5));
    looks.holds(clock.faults() == 0);
    let mut late = SystemClock::new(Still(Some(Duration::from_secs(u64::MAX))));
    looks.holds(late.reading() == Err(Failed));
    looks.holds(late.faults() == 1);
    let mut none = SystemClock::new(Still(None));
    looks.holds(none.reading() == Err(Failed));
    looks.holds(none.reading() == Err(Failed));
    looks.holds(none.faults() == 2);
}

// The clock of the machine, which is past the year 2024, and does not go back.
fn machine_reads(rt: HostRuntime, looks: &mut Looks) {
    let mut clock = SystemClock::new(rt);
    let first = clock.reading().unwrap_or(0);
    let second = clock.reading().unwrap_or(0);
    looks.holds(first > 1_735_689_600);
    looks.holds(second >= first);
    looks.holds(clock.faults() == 0);
}

impl Calls for Machine {
    fn make(&self, alloc: Global, looks: &mut Looks) -> Result<()> {
        source_gives(alloc, looks)?;
        source_fails(alloc, looks);
        source_keeps(alloc, looks)?;
        sink_takes(looks);
        clock_reads(looks);
        machine_reads(self.rt, looks);
        Ok(())
    }
}
