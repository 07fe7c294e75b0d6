use crate::calls_of;
use anyhow::{Context, Result};
use apl_arrays::{Bytes, File, FileList, FileName};
use apl_io::MemoryText;
use case_tables::bytes_of;
use std::alloc::Global;

/// The file that a field says: its name, a colon, and its bytes with their escapes. Memory for the bytes.
pub fn file_of(alloc: Global, field: &str) -> Result<File> {
    let (name, text) = field
        .split_once(":")
        .context("a name and a colon are wanted")?;
    let name = FileName::of(name).context("a name of a file is wanted")?;
    let bytes = Bytes::from(bytes_of(alloc, text)?);
    Ok(File { name, bytes })
}

/// A text store with the file that a field says, or with none, whose calls of these numbers are to fail. Memory for the
/// file and the numbers.
pub fn store_of(alloc: Global, file: &str, fails: &str) -> Result<MemoryText> {
    let fails = calls_of(alloc, fails)?;
    let mut files = FileList::new(alloc);
    if !file.is_empty() {
        files.push(file_of(alloc, file)?)?;
    }
    Ok(MemoryText::new(alloc, files, fails))
}
