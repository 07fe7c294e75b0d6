use anyhow::Result;
use apl_arrays::{File, utf8_of};
use bundle_text::{Bundle, BundleUser};
use std::alloc::{AllocError, Global};
use std::str;

// A user: the heading, and each line behind a bar.
fn push_user(alloc: Global, text: &mut String, user: &BundleUser) -> Result<()> {
    let number = user.number;
    write!(text, "user {number}")?;
    for line in user.lines.as_slice() {
        text.push_str(" |")?;
        let line = utf8_of(alloc, line)?;
        text.push_str(str::from_utf8(line.as_slice())?)?;
    }
    text.push_str("; ")?;
    Ok(())
}

// A file: the heading, and its bytes between bars.
fn push_file(text: &mut String, file: &File) -> Result<()> {
    text.push_str("file ")?;
    text.push_str(str::from_utf8(file.name.as_bytes())?)?;
    text.push_str(" |")?;
    text.push_str(str::from_utf8(file.bytes.as_slice())?)?;
    text.push_str("|; ")?;
    Ok(())
}

fn push_turns(text: &mut String, order: &[u32]) -> Result<(), AllocError> {
    for party in order {
        write!(text, "turn {party}; ")?;
    }
    Ok(())
}

fn push_readings(text: &mut String, clock: &[i64]) -> Result<(), AllocError> {
    for reading in clock {
        write!(text, "reading {reading}; ")?;
    }
    Ok(())
}

/// What a bundle has: its users with their lines, its turns, its files with their bytes, and its readings; and `end`.
pub fn bundle_text(alloc: Global, bundle: &Bundle) -> Result<String> {
    let mut text = String::new(alloc);
    for user in bundle.users() {
        push_user(alloc, &mut text, user)?;
    }
    push_turns(&mut text, bundle.order())?;
    for file in bundle.files() {
        push_file(&mut text, file)?;
    }
    push_readings(&mut text, bundle.clock())?;
    text.push_str("end")?;
    Ok(text)
}
