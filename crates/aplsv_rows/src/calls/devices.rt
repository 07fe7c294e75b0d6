use crate::calls::failing::failing_at;
use anyhow::{Result, bail};
use apl_arrays::{Bytes, File, FileList, FileName, Name, NameList, Readings};
use apl_io::{
    CallNumbers, Clock, Failed, MemoryClock, MemoryShelf, MemoryText, Shelf, StoreError, TextStore,
};
use case_fields::name_of;
use case_tables::{Calls, Looks};
use std::alloc::Global;

/// A shelf, a text store and a clock in memory, which keep what they are told.
#[derive(Clone, Copy, Debug)]
pub struct Devices;

// Whether these bytes were given.
fn are_bytes(found: Option<Option<Bytes>>, wanted: &[u8]) -> bool {
    let are_these = matches!(&found, Some(Some(bytes)) if bytes.as_slice() == wanted);
    drop(found);
    are_these
}

// Whether it was told that there are no bytes.
fn is_absent(found: Option<Option<Bytes>>) -> bool {
    let is_so = matches!(&found, Some(None));
    drop(found);
    is_so
}

// Whether this name was given, alone.
fn is_name(found: Option<NameList>, name: &Name) -> bool {
    let is_so = matches!(&found, Some(names) if names.as_slice() == [*name].as_slice());
    drop(found);
    is_so
}

// What a call gave, or none where the device failed. An `Err` says that memory was refused.
fn given<T: Drop>(answer: Result<T, StoreError>) -> Result<Option<T>> {
    match answer {
        Ok(value) => Ok(Some(value)),
        Err(StoreError::Failed) => Ok(None),
        Err(StoreError::WantOfMemory) => bail!("out of memory"),
    }
}

fn keeps_for_a_user<S: Shelf>(looks: &mut Looks, shelf: &mut S, name: &Name) -> Result<()> {
    shelf.set_place("a")?;
    given(shelf.write(1001, name, b"SAVED"))?;
    looks.holds(are_bytes(given(shelf.read(1001, name))?, b"SAVED"));
    looks.holds(is_name(given(shelf.names(1001))?, name));
    looks.holds(given(shelf.remove(1001, name))? == Some(true));
    looks.holds(shelf.faults() == 0);
    Ok(())
}

// A file is given, and its second call fails.
fn keeps_files<T: TextStore>(looks: &mut Looks, store: &mut T) -> Result<()> {
    store.set_place("a")?;
    looks.holds(are_bytes(given(store.read("NOTES"))?, b"ONE"));
    looks.holds(given(store.replace("OUT", b"TWO"))?.is_none());
    looks.holds(store.faults() == 1);
    given(store.replace("OUT", b"TWO"))?;
    looks.holds(are_bytes(given(store.read("OUT"))?, b"TWO"));
    looks.holds(is_absent(given(store.read("GONE"))?));
    Ok(())
}

// One reading is left.
fn gives_readings<C: Clock>(looks: &mut Looks, clock: &mut C) {
    looks.holds(clock.reading() == Ok(100));
    looks.holds(clock.reading() == Err(Failed));
    looks.holds(clock.faults() == 1);
}

fn keeps_entries(alloc: Global, looks: &mut Looks) -> Result<()> {
    let name = name_of(alloc, "X")?;
    let mut shelf = MemoryShelf::new(alloc, CallNumbers::new(alloc));
    let made = keeps_for_a_user(looks, &mut shelf, &name);
    drop(shelf);
    made
}

fn keeps_texts(alloc: Global, looks: &mut Looks) -> Result<()> {
    let Some(name) = FileName::of("NOTES") else {
        looks.holds(false);
        return Ok(());
    };
    let mut files = FileList::new(alloc);
    let bytes = Bytes::from(Vec::from_slice(alloc, b"ONE")?);
    files.push(File { name, bytes })?;
    let mut store = MemoryText::new(alloc, files, failing_at(alloc, 2)?);
    let made = keeps_files(looks, &mut store);
    drop(store);
    made
}

fn keeps_time(alloc: Global, looks: &mut Looks) -> Result<()> {
    let mut readings = Readings::new(alloc);
    readings.push(100)?;
    let mut clock = MemoryClock::new(readings, CallNumbers::new(alloc));
    gives_readings(looks, &mut clock);
    Ok(())
}

impl Calls for Devices {
    fn make(&self, alloc: Global, looks: &mut Looks) -> Result<()> {
        keeps_entries(alloc, looks)?;
        keeps_texts(alloc, looks)?;
        keeps_time(alloc, looks)
    }
}
