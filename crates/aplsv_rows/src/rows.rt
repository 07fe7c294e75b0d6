use anyhow::{Context, Result};
use case_tables::{Tally, bytes_of};
use std::alloc::{AllocError, Global};
use std::fs;
use std::rt::Files;

// A broken bar, which is no glyph of the language, with a blank on either side.
const SEPARATOR: &str = " ¦ ";

fn fields_of(alloc: Global, row: &str) -> Result<Vec<&str>, AllocError> {
    row.split(SEPARATOR).collect(alloc)
}

// What a row says behind so many fields.
fn behind_fields(row: &str, count: usize) -> Option<&str> {
    row.splitn(count.saturating_add(1), SEPARATOR).nth(count)
}

// Whether a row differs. A line is printed where it does. What is found is looked for once more where memory was refused.
fn row_differs<R: Print + AllocGlobal, F: Fn(Global, &[&str]) -> Result<String>>(
    rt: &R,
    file: &str,
    given: usize,
    found: &F,
    row: &str,
) -> Result<bool>
    requires { F.IsAlwaysCallable found.now }
{
    let wanted = behind_fields(row, given).context("nothing says what is wanted")?;
    let wanted = bytes_of(rt.alloc(), wanted)?;
    let fields = fields_of(rt.alloc(), row)?;
    let text = match found(rt.alloc(), &fields) {
        Ok(text) => text,
        Err(_) => found(rt.alloc(), &fields)?,
    };
    if text.as_bytes() == wanted.as_slice() {
        return Ok(false);
    }
    println!(rt; "{file}: {row}: it gives {text}")?;
    Ok(true)
}

/// Tries each row of a table by a call, of which so many fields are given, as `run_table` of `case_tables` does by a trait: what
/// needs threads may be called by a closure of a function that has them, and not by a trait.
pub fn run_rows<R: Files + Print + AllocGlobal, F: Fn(Global, &[&str]) -> Result<String>>(
    rt: &R,
    file: &str,
    given: usize,
    found: F,
) -> Result<Tally>
    requires { F.IsAlwaysCallable found }
{
    let text = fs::read_to_string(rt, file).context(format_args!("reading {file}"))?;
    let mut tally = Tally::new();
    for row in text.lines() {
        if !row.is_empty() && !row.starts_with('#') {
            let differs = row_differs(rt, file, given, &found, row);
            tally.count(differs.context(format_args!("{file}: {row}"))?);
        }
    }
    let Tally { cases, differing } = tally;
    println!(rt; "{file}: {cases} cases, of which {differing} differ")?;
    Ok(tally)
}
