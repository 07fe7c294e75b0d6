use anyhow::{Context, Result};
use apl_arrays::{Glyph, Line, LineList, Name, NameList, glyphs_of, utf8_of};
use case_tables::bytes_of;
use std::alloc::Global;
use std::str;

/// The text that a field says, with its escapes.
pub fn unescaped(alloc: Global, field: &str) -> Result<String> {
    Ok(String::from_str(alloc, str::from_utf8(&bytes_of(alloc, field)?)?)?)
}

/// What a field says, or none where it is `-`.
pub fn stated(field: &str) -> Option<&str> {
    (field != "-").then_some(field)
}

/// What stands between the quotes of a field.
pub fn quoted(field: &str) -> Result<&str> {
    let inside = field
        .strip_prefix("'")
        .and_then(|rest| rest.strip_suffix("'"));
    inside.context("no quotes")
}

/// The line that a text spells.
pub fn line_of(alloc: Global, text: &str) -> Result<Line> {
    Ok(glyphs_of(alloc, text.as_bytes())?)
}

/// The name that a text spells.
pub fn name_of(alloc: Global, text: &str) -> Result<Name> {
    Name::of(line_of(alloc, text)?.as_slice()).context("no name")
}

/// The names that a text spells, with blanks between.
pub fn names_of(alloc: Global, text: &str) -> Result<NameList> {
    let mut names = NameList::new(alloc);
    for word in text.split_whitespace() {
        names.push(name_of(alloc, word)?)?;
    }
    Ok(names)
}

/// Adds glyphs to a text.
pub fn push_glyphs(alloc: Global, text: &mut String, glyphs: &[Glyph]) -> Result<()> {
    let line = Line::from(Vec::from_slice(alloc, glyphs)?);
    let bytes = utf8_of(alloc, &line)?;
    text.push_str(str::from_utf8(bytes.as_slice())?)?;
    Ok(())
}

/// The text of glyphs.
pub fn glyphs_text(alloc: Global, glyphs: &[Glyph]) -> Result<String> {
    let mut text = String::new(alloc);
    push_glyphs(alloc, &mut text, glyphs)?;
    Ok(text)
}

/// Adds lines to a text, with an end behind each.
pub fn push_lines(alloc: Global, text: &mut String, lines: &LineList, end: &str) -> Result<()> {
    for line in lines.as_slice() {
        push_glyphs(alloc, text, line.as_slice())?;
        text.push_str(end)?;
    }
    Ok(())
}

/// Adds characters to a text, in quotes, with each quote among them twice.
pub fn push_quoted(alloc: Global, text: &mut String, glyphs: &[Glyph]) -> Result<()> {
    let plain = glyphs_text(alloc, glyphs)?.replace(alloc, "'", "''")?;
    write!(text, "'{plain}'")?;
    Ok(())
}

/// Adds names to a text, with a blank before each.
pub fn push_names(alloc: Global, text: &mut String, names: &[Name]) -> Result<()> {
    for name in names {
        text.push(' ')?;
        push_glyphs(alloc, text, name.glyphs())?;
    }
    Ok(())
}

/// The text of names, with blanks between.
pub fn names_text(alloc: Global, names: &[Name]) -> Result<String> {
    let mut text = String::new(alloc);
    push_names(alloc, &mut text, names)?;
    Ok(String::from_str(alloc, text.trim_start())?)
}
