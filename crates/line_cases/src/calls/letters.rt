use anyhow::{Context, Result};
use apl_arrays::{Glyph, Name};

/// The name of one letter. It takes no memory.
pub fn letter(code: u8) -> Result<Name> {
    let glyph = Glyph::of_code(code).context("no glyph")?;
    Name::of(&[glyph]).context("no name")
}
