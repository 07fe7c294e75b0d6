use anyhow::{Context, Result, bail};
use apl_arrays::Bytes;
use apl_io::{MemoryText, StoreError, TextStore};
use std::alloc::Global;
use std::str;

/// The file that the store has under the name which a field has before its colon: the name, a colon and its bytes.
pub fn file_text(alloc: Global, store: &mut MemoryText, field: &str) -> Result<String> {
    let (name, _) = field.split_once(":").context("no name of a file")?;
    match store.read(name) {
        Ok(Some(bytes)) => {
            let text = str::from_utf8(bytes.as_slice())?;
            Ok(format!(in alloc; "{name}:{text}")?)
        }
        Ok(None) => Ok(format!(in alloc; "no file {name}")?),
        Err(StoreError::Failed) => bail!("the store failed"),
        Err(StoreError::WantOfMemory) => bail!("out of memory"),
    }
}

// Bytes as a text in quotes, or that there are none.
fn kept_text(alloc: Global, bytes: Option<&Bytes>) -> Result<String> {
    match bytes {
        None => Ok(String::from_str(alloc, "none")?),
        Some(bytes) => {
            let text = str::from_utf8(bytes.as_slice())?;
            Ok(format!(in alloc; "'{text}'")?)
        }
    }
}

/// That a call failed.
pub fn failure_text(alloc: Global, error: StoreError) -> Result<String> {
    match error {
        StoreError::Failed => Ok(String::from_str(alloc, "failed")?),
        StoreError::WantOfMemory => bail!("out of memory"),
    }
}

/// What a call gave that tells nothing more.
pub fn done_text(alloc: Global, outcome: Result<(), StoreError>) -> Result<String> {
    match outcome {
        Ok(()) => Ok(String::from_str(alloc, "ok")?),
        Err(error) => failure_text(alloc, error),
    }
}

/// What a call gave that reads bytes.
pub fn read_text(alloc: Global, outcome: Result<Option<Bytes>, StoreError>) -> Result<String> {
    match outcome {
        Ok(bytes) => kept_text(alloc, bytes.as_ref()),
        Err(error) => failure_text(alloc, error),
    }
}
