use crate::lines::compared;
use anyhow::{Result, bail};
use apl_arrays::{Array, Line};
use case_fields::{line_of, unescaped};
use case_tables::Trial;
use std::alloc::Global;
use sv_journal::{ValueRefused, value_of, value_text};

/// Lines that are read as arrays: `again` where an array with this text is read, else `none`.
#[derive(Clone, Copy, Debug)]
pub struct ValueLines;

// How a line compares with the text of the array that was read from it. The array is let go.
fn written_again(alloc: Global, line: &Line, array: Array) -> Result<String> {
    let written = value_text(alloc, &array);
    drop(array);
    compared(alloc, line, &written?)
}

impl Trial for ValueLines {
    fn given(&self) -> usize {
        1
    }

    fn found(&self, alloc: Global, fields: &[&str]) -> Result<String> {
        let [field, ..] = fields else {
            bail!("a line is wanted");
        };
        let line = line_of(alloc, unescaped(alloc, *field)?.as_str())?;
        match value_of(alloc, &line) {
            Ok(array) => written_again(alloc, &line, array),
            Err(ValueRefused::BadValue) => Ok(String::from_str(alloc, "none")?),
            Err(ValueRefused::WantOfMemory) => bail!("out of memory"),
        }
    }
}
