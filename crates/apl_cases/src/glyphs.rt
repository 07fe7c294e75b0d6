use anyhow::{Result, bail, ensure};
use apl_arrays::{Glyph, GlyphRefused, glyphs_of};
use case_fields::{glyphs_text, line_of};
use case_tables::bytes_of;
use std::alloc::Global;

fn kind_of(glyph: Glyph) -> &'static str {
    if glyph.is_letter() {
        "letter"
    } else if glyph.is_digit() {
        "digit"
    } else if glyph.is_blank() {
        "blank"
    } else {
        "other"
    }
}

/// The glyph of a code, what it is, and whether a name goes on with it; or `none`. Its text is read as this glyph alone, and
/// says its value exactly where it is a digit.
pub fn code_text(alloc: Global, code: &str) -> Result<String> {
    let code = code.parse()?;
    let Some(glyph) = Glyph::of_code(code) else {
        return Ok(String::from_str(alloc, "none")?);
    };
    let text = glyphs_text(alloc, &[glyph])?;
    let line = line_of(alloc, text.as_str())?;
    let is_read = line.as_slice() == [glyph].as_slice() && glyph.code() == code;
    let value = text.parse().ok();
    ensure!(is_read && glyph.digit_value() == value, "another glyph");
    let kind = kind_of(glyph);
    let goes = if glyph.goes_on() { "on" } else { "off" };
    Ok(format!(in alloc; "'{text}' ¦ {kind} ¦ {goes}")?)
}

/// Where the first thing stands in bytes that is no glyph.
pub fn refusal_place(alloc: Global, bytes: &str) -> Result<String> {
    match glyphs_of(alloc, &bytes_of(alloc, bytes)?) {
        Ok(_) => Ok(String::from_str(alloc, "all are glyphs")?),
        Err(GlyphRefused::BadGlyph(place)) => Ok(place.to_string(alloc)?),
        Err(GlyphRefused::WantOfMemory) => bail!("out of memory"),
    }
}
