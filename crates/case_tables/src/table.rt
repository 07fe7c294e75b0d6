use crate::{Tally, bytes_of};
use anyhow::{Context, Result};
use std::alloc::{AllocError, Global};
use std::fs;
use std::rt::Files;

// A broken bar, which is no glyph of the language, with a blank on either side.
const SEPARATOR: &str = " ¦ ";

/// What the rows of a table try.
pub trait Trial {
    /// How many fields of a row are given. Those behind them say what is wanted.
    fn given(&self) -> usize;

    /// What is found for the fields of a row, written as the fields that say what is wanted.
    fn found(&self, alloc: Global, fields: &[&str]) -> Result<String>;
}

// Whether a line of a table is a row: it is not empty, and no comment.
fn is_row(line: &str) -> bool {
    !line.is_empty() && !line.starts_with('#')
}

fn fields(alloc: Global, row: &str) -> Result<Vec<&str>, AllocError> {
    row.split(SEPARATOR).collect(alloc)
}

// What a row says behind so many fields.
fn after_fields(row: &str, count: usize) -> Option<&str> {
    row.splitn(count.saturating_add(1), SEPARATOR).nth(count)
}

// Whether a row differs. A line is printed where it does. What is found is looked for once more where memory was refused.
fn row_differs<R: Print + AllocGlobal, T: Trial>(
    rt: &R,
    file: &str,
    trial: &T,
    row: &str,
) -> Result<bool> {
    let wanted = after_fields(row, trial.given()).context("nothing says what is wanted")?;
    let wanted = bytes_of(rt.alloc(), wanted)?;
    let fields = fields(rt.alloc(), row)?;
    let found = match trial.found(rt.alloc(), &fields) {
        Ok(found) => found,
        Err(_) => trial.found(rt.alloc(), &fields)?,
    };
    if found.as_bytes() == wanted.as_slice() {
        return Ok(false);
    }
    println!(rt; "{file}: {row}: it gives {found}")?;
    Ok(true)
}

/// Tries each row of a table, which is a file of text. A line that is empty or begins with `#` is no row, and ` ¦ `
/// stands between the fields of one; what is wanted may have escapes. A line is printed for each row that differs, and
/// one for the table. Memory for the file, and for what the trial takes.
pub fn run_table<R: Files + Print + AllocGlobal, T: Trial>(
    rt: &R,
    file: &str,
    trial: &T,
) -> Result<Tally> {
    let text = fs::read_to_string(rt, file).context(format_args!("reading {file}"))?;
    let mut tally = Tally::new();
    for row in text.lines() {
        if is_row(row) {
            let differs = row_differs(rt, file, trial, row);
            tally.count(differs.context(format_args!("{file}: {row}"))?);
        }
    }
    let Tally { cases, differing } = tally;
    println!(rt; "{file}: {cases} cases, of which {differing} differ")?;
    Ok(tally)
}

/// Tries each of these tables, and counts the cases of all. Memory as each of them takes.
pub fn run_tables<R: Files + Print + AllocGlobal, T: Trial>(
    rt: &R,
    tables: &[(&str, T)],
) -> Result<Tally> {
    let mut tally = Tally::new();
    for (file, trial) in tables {
        tally.add(run_table(rt, *file, trial)?);
    }
    Ok(tally)
}
