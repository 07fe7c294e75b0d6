ghost use Rattle.std.specs.Prelude.{◌≡◌, ◌≤◌, ◌++◌, true, IfOk, OnOk, length};
ghost use Rattle.std.specs.List.{list_all, prefix_len};
ghost use Rattle.ws_codec.specs.Fields.{is_code, name_of_codes};

use apl_arrays::{Glyph, Line, List, Name, WantOfMemory};
use std::alloc::Global;

/// Whether a byte is the code of a glyph.
pub fn is_code(byte: u8) -> bool
    ensures { result ≡ is_code byte }
{
    byte >= 32 && byte <= 162 && byte != 127
}

/// Whether all bytes are codes of glyphs.
pub fn are_codes(bytes: &[u8]) -> bool
    ensures { result ≡ list_all is_code bytes.now }
{
    bytes.iter().all(|byte| is_code(*byte))
}

/// How many bytes at the front are codes of glyphs.
#[tactic(auto, using(crate::proofs::CodeLemmas::run_fits))]
pub fn code_count(bytes: &[u8]) -> usize
    ensures value { result ≡ prefix_len is_code bytes.now }
    ensures within { result ≤ length bytes.now }
{
    bytes.iter().take_while(|byte| is_code(**byte)).count()
}

/// The line that codes of glyphs spell. It takes memory for the line.
#[tactic(auto, using(crate::proofs::CodeLemmas::coded_at))]
pub fn line_of(alloc: Global, codes: &[u8]) -> Result<Line, WantOfMemory>
    requires { list_all is_code codes.now ≡ true }
    ensures { IfOk result (λ line. line.items ≡ codes.now) }
{
    let mut line = List::new(alloc);
    line.reserve(codes.len())?;
    for code in codes {
        line.push(Glyph::with_code(*code))?;
    }
    Ok(line)
}

/// The name that bytes are the codes of, or `None` where they are no name. It takes memory for a line of them.
#[tactic(auto, using(crate::proofs::CodeLemmas::no_name))]
pub fn name_of_codes(alloc: Global, bytes: &[u8]) -> Result<Option<Name>, WantOfMemory>
    ensures { IfOk result (λ name. name ≡ name_of_codes bytes.now) }
{
    if !are_codes(bytes) {
        return Ok(None);
    }
    let line = line_of(alloc, bytes)?;
    Ok(name_of_line(&line))
}

/// The name that a line is, or `None` where it is none.
fn name_of_line(line: &Line) -> Option<Name>
    ensures { result ≡ name_of_codes line.now.items }
{
    Name::of(line.as_slice())
}

/// Adds the codes of glyphs at the end of bytes. It takes memory for them; where that runs out, some of them may stand
/// there.
pub fn add_codes(bytes: &mut Vec<u8>, glyphs: &[Glyph]) -> Result<(), WantOfMemory>
    ensures { OnOk result (bytes.new.items ≡ bytes.old.items ++ glyphs.now) }
{
    for glyph in glyphs {
        bytes.push(glyph.code())?;
    }
    Ok(())
}
