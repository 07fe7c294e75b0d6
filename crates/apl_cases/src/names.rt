use anyhow::{Context, Result, ensure};
use apl_arrays::{FileName, Glyph, Name, next_word};
use case_fields::{glyphs_text, line_of, name_of, quoted, unescaped};
use std::alloc::Global;
use std::cmp::Ordering;

fn front_of(alloc: Global, line: &[Glyph]) -> Result<String> {
    match Name::longest(line) {
        None => Ok(String::from_str(alloc, "none")?),
        Some((name, count)) => {
            ensure!(line.get(..count) == Some(name.glyphs()), "another front");
            Ok(count.to_string(alloc)?)
        }
    }
}

/// Whether a line is a name, how many glyphs its longest name at the front has, and how many go on.
pub fn name_text(alloc: Global, field: &str) -> Result<String> {
    let line = line_of(alloc, quoted(field)?)?;
    let line = line.as_slice();
    let whole = match Name::of(line) {
        None => "none",
        Some(name) if name.glyphs() == line => "name",
        Some(_) => "another name",
    };
    let front = front_of(alloc, line)?;
    let run = Name::run_length(line);
    Ok(format!(in alloc; "{whole} ¦ {front} ¦ {run}")?)
}

fn file_name_of(alloc: Global, field: &str) -> Result<Option<FileName>> {
    Ok(FileName::of(unescaped(alloc, quoted(field)?)?.as_str()))
}

/// Whether a text is a name of a file.
pub fn file_name_text(alloc: Global, field: &str) -> Result<String> {
    let found = match file_name_of(alloc, field)? {
        None => "none",
        Some(name) if name.as_bytes() == quoted(field)?.as_bytes() => "name",
        Some(_) => "another name",
    };
    Ok(String::from_str(alloc, found)?)
}

// How two values stand to each other, which are equal exactly where their order says so.
fn order_text<T: Ord>(alloc: Global, one: &T, other: &T) -> Result<String> {
    let text = match (one.cmp(other), one == other) {
        (Ordering::Less, false) => "less",
        (Ordering::Equal, true) => "equal",
        (Ordering::Greater, false) => "greater",
        _ => "equal and in order",
    };
    Ok(String::from_str(alloc, text)?)
}

/// How a name stands to another in their order.
pub fn name_order(alloc: Global, one: &str, other: &str) -> Result<String> {
    let one = name_of(alloc, quoted(one)?)?;
    order_text(alloc, &one, &name_of(alloc, quoted(other)?)?)
}

/// How a name of a file stands to another in their order.
pub fn file_name_order(alloc: Global, one: &str, other: &str) -> Result<String> {
    let (one, other) = (file_name_of(alloc, one)?, file_name_of(alloc, other)?);
    order_text(alloc, &one.context("no name")?, &other.context("no name")?)
}

/// The next word of a line and what follows it, or that there is none.
pub fn word_text(alloc: Global, field: &str) -> Result<String> {
    match next_word(line_of(alloc, quoted(field)?)?.as_slice()) {
        None => Ok(String::from_str(alloc, "none ¦ none")?),
        Some((word, rest)) => {
            let (word, rest) = (glyphs_text(alloc, word)?, glyphs_text(alloc, rest)?);
            Ok(format!(in alloc; "'{word}' ¦ '{rest}'")?)
        }
    }
}
