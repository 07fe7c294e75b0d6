use anyhow::Result;
use apl_arrays::{Array, FileList, Readings, WantOfMemory};
use apl_io::{CallNumbers, MemoryClock, MemoryText};
use auxiliaries::{ClockAux, Replier, TextAux};
use case_fields::value_of;
use case_tables::{Calls, Looks};
use std::alloc::Global;

/// The auxiliaries over devices in memory. Where memory ran out once, a value is given again, and all answers are the same.
#[derive(Clone, Copy, Debug)]
pub struct Repliers;

// The user whose values the auxiliaries are given.
const USER: u32 = 1001;

// The answer at the second attempt, where memory ran out at the first.
fn answer<R: Replier>(replier: &mut R, value: &Array) -> Result<Array, WantOfMemory> {
    match replier.reply(USER, value) {
        Ok(answer) => Ok(answer),
        Err(_) => replier.reply(USER, value),
    }
}

// A value is answered by another.
fn answers<R: Replier>(
    alloc: Global,
    looks: &mut Looks,
    replier: &mut R,
    value: &str,
    wanted: &str,
) -> Result<()> {
    let value = value_of(alloc, value)?;
    let answered = answer(replier, &value);
    drop(value);
    is_value(alloc, looks, answered?, wanted)
}

// An answer is this value.
fn is_value(alloc: Global, looks: &mut Looks, answered: Array, wanted: &str) -> Result<()> {
    match value_of(alloc, wanted) {
        Ok(value) => {
            looks.holds(answered == value);
            drop(answered);
            drop(value);
            Ok(())
        }
        Err(error) => {
            drop(answered);
            Err(error)
        }
    }
}

// A file is written and read.
fn writes_and_reads<R: Replier>(alloc: Global, looks: &mut Looks, aux: &mut R) -> Result<()> {
    for (value, wanted) in [
        ("'NEXT'", "2"),
        ("'WRITE OUT'", "0"),
        ("'PUT HI'", "0"),
        ("'DONE'", "0"),
        ("'READ OUT'", "0"),
        ("'NEXT'", "'HI'"),
    ] {
        answers(alloc, looks, aux, value, wanted)?;
    }
    aux.forget(USER);
    answers(alloc, looks, aux, "'NEXT'", "2")
}

fn keeps_a_file(alloc: Global, looks: &mut Looks) -> Result<()> {
    let store = MemoryText::new(alloc, FileList::new(alloc), CallNumbers::new(alloc));
    let mut aux = TextAux::new(alloc, store);
    let made = writes_and_reads(alloc, looks, &mut aux);
    drop(aux);
    made
}

// A clock is read to its end.
fn reads_to_the_end<R: Replier>(alloc: Global, looks: &mut Looks, aux: &mut R) -> Result<()> {
    answers(alloc, looks, aux, "0", "100")?;
    answers(alloc, looks, aux, "0", "¯2")
}

fn tells_the_time(alloc: Global, looks: &mut Looks) -> Result<()> {
    let mut readings = Readings::new(alloc);
    readings.push(100)?;
    let mut aux = ClockAux::new(MemoryClock::new(readings, CallNumbers::new(alloc)));
    let made = reads_to_the_end(alloc, looks, &mut aux);
    drop(aux);
    made
}

impl Calls for Repliers {
    fn make(&self, alloc: Global, looks: &mut Looks) -> Result<()> {
        keeps_a_file(alloc, looks)?;
        tells_the_time(alloc, looks)
    }
}
