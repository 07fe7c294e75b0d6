use anyhow::Result;
use apl_workspace::Header;
use case_fields::{line_of, names_text, push_glyphs};
use case_workspaces::lent;
use std::alloc::Global;

/// The header that a line is: its result, left argument, name and right argument, with `-` where there is none, and its
/// local names; or `none`.
pub fn header_text(alloc: Global, line: &str) -> Result<String> {
    let line = line_of(alloc, line)?;
    let header = Header::read(alloc, &line)?;
    drop(line);
    match header {
        None => Ok(String::from_str(alloc, "none")?),
        Some(header) => lent(Ok(header), |header| names_of_header(alloc, header)),
    }
}

// The names of a header.
fn names_of_header(alloc: Global, header: &Header) -> Result<String> {
    let mut text = String::new(alloc);
    for name in [header.result, header.left, Some(header.name), header.right] {
        match name {
            None => text.push('-')?,
            Some(name) => push_glyphs(alloc, &mut text, name.glyphs())?,
        }
        text.push(' ')?;
    }
    let locals = names_text(alloc, header.locals.as_slice())?;
    write!(text, ": {locals}")?;
    Ok(text)
}
