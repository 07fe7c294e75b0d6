ghost use Rattle.std.specs.Prelude.{◌≡◌, ◌≤◌, ◌++◌, OnOk, length};
ghost use Rattle.std.specs.Int.{w64, cast_unsigned};
ghost use Rattle.byteorder.specs.Endian.{big_bytes};
ghost use Rattle.apl_arrays.specs.Limits.{most_line_glyphs};
ghost use Rattle.ws_codec.specs.SavedText.{line_bytes, name_bytes};

use crate::codes::add_codes;
use apl_arrays::{Line, Name, WantOfMemory};
use byteorder::{BigEndian, ByteOrder};

/// Adds bytes at the end of others. It takes memory for them; `WantOfMemory` leaves the others as they were.
pub fn add_bytes(bytes: &mut Vec<u8>, field: &[u8]) -> Result<(), WantOfMemory>
    ensures { OnOk result (bytes.new.items ≡ bytes.old.items ++ field.now) }
{
    bytes.extend_from_slice(field)?;
    Ok(())
}

/// Adds a number in two bytes, the highest first. It takes memory for them.
pub fn add_number16(bytes: &mut Vec<u8>, number: u16) -> Result<(), WantOfMemory>
    ensures { OnOk result (bytes.new.items ≡ bytes.old.items ++ big_bytes 2 number) }
{
    let mut field = [0u8; 2];
    BigEndian::write_u16(&mut field, number);
    add_bytes(bytes, &field)
}

/// Adds a number in four bytes, the highest first. It takes memory for them.
pub fn add_number32(bytes: &mut Vec<u8>, number: u32) -> Result<(), WantOfMemory>
    ensures { OnOk result (bytes.new.items ≡ bytes.old.items ++ big_bytes 4 number) }
{
    let mut field = [0u8; 4];
    BigEndian::write_u32(&mut field, number);
    add_bytes(bytes, &field)
}

/// Adds a number with a sign in eight bytes, the highest first. It takes memory for them.
pub fn add_integer(bytes: &mut Vec<u8>, number: i64) -> Result<(), WantOfMemory>
    ensures { OnOk result (bytes.new.items ≡ bytes.old.items ++ big_bytes 8 (cast_unsigned w64 number)) }
{
    let mut field = [0u8; 8];
    BigEndian::write_i64(&mut field, number);
    add_bytes(bytes, &field)
}

/// Adds a name: its length in one byte, and its codes. It takes memory for them; where that runs out, a part of them may
/// stand there.
#[tactic(auto, using(crate::proofs::CodeLemmas::names_are_short))]
pub fn add_name(bytes: &mut Vec<u8>, name: &Name) -> Result<(), WantOfMemory>
    ensures { OnOk result (bytes.new.items ≡ bytes.old.items ++ name_bytes name.now) }
{
    let glyphs = name.glyphs();
    bytes.push(glyphs.len() as u8)?;
    add_codes(bytes, glyphs)
}

/// Adds a header or a line: its length in two bytes, and its codes. It takes memory for them; where that runs out, a part
/// of them may stand there.
pub fn add_line(bytes: &mut Vec<u8>, line: &Line) -> Result<(), WantOfMemory>
    requires { length line.now.items ≤ most_line_glyphs }
    ensures { OnOk result (bytes.new.items ≡ bytes.old.items ++ line_bytes line.now.items) }
{
    let glyphs = line.as_slice();
    add_number16(bytes, glyphs.len() as u16)?;
    add_codes(bytes, glyphs)
}
