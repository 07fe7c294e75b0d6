ghost use Rattle.std.specs.Prelude.{◌≡◌, ◌≤◌, ◌++◌, All, OnOk, length, map};
ghost use Rattle.std.specs.Int.{w64, cast_unsigned};
ghost use Rattle.std.specs.List.{flat_map};
ghost use Rattle.byteorder.specs.Endian.{big_bytes};
ghost use Rattle.apl_arrays.specs.Array.{seen_items};
ghost use Rattle.apl_arrays.specs.Limits.{most_line_glyphs};
ghost use Rattle.apl_arrays.specs.List.{glyphs_in};
ghost use Rattle.apl_workspace.specs.Function.{IsFunction};
ghost use Rattle.ws_codec.specs.SavedText.{array_bytes, function_bytes, items_bytes, line_bytes};

use crate::codes::add_codes;
use crate::numbers::{add_integer, add_line, add_number16, add_number32};
use apl_arrays::{Array, ItemsRef, Line, WantOfMemory};
use apl_workspace::Function;

/// Adds a variable: its rank, its axes and its items. It takes memory for them; where that runs out, a part of them may
/// stand there.
pub fn add_array(bytes: &mut Vec<u8>, array: &Array) -> Result<(), WantOfMemory>
    ensures { OnOk result (bytes.new.items ≡ bytes.old.items ++ array_bytes array.now) }
{
    let shape = array.shape();
    bytes.push(shape.len() as u8)?;
    add_axes(bytes, shape)?;
    add_items(bytes, array.items())
}

/// Adds axes.
fn add_axes(bytes: &mut Vec<u8>, shape: &[u32]) -> Result<(), WantOfMemory>
    ensures { OnOk result (bytes.new.items ≡ bytes.old.items ++ flat_map (big_bytes 4) shape.now) }
{
    for axis in shape {
        add_number32(bytes, *axis)?;
    }
    Ok(())
}

/// Adds items.
fn add_items(bytes: &mut Vec<u8>, items: ItemsRef<'_>) -> Result<(), WantOfMemory>
    ensures { OnOk result (bytes.new.items ≡ bytes.old.items ++ items_bytes (seen_items items.entry)) }
{
    match items {
        ItemsRef::Numbers(numbers) => add_integers(bytes, numbers),
        ItemsRef::Chars(glyphs) => add_codes(bytes, glyphs),
    }
}

/// Adds numbers, each in eight bytes.
fn add_integers(bytes: &mut Vec<u8>, numbers: &[i64]) -> Result<(), WantOfMemory>
    ensures { OnOk result (bytes.new.items ≡ bytes.old.items ++ flat_map (λ number. big_bytes 8 (cast_unsigned w64 number)) numbers.now) }
{
    for number in numbers {
        add_integer(bytes, *number)?;
    }
    Ok(())
}

/// Adds a function: its header, how many lines it has, and the lines. It takes memory for them; where that runs out, a
/// part of them may stand there.
pub fn add_function(bytes: &mut Vec<u8>, function: &Function) -> Result<(), WantOfMemory>
    requires { IsFunction function.now }
    ensures { OnOk result (bytes.new.items ≡ bytes.old.items ++ function_bytes function.now) }
{
    add_line(bytes, function.text())?;
    let lines = function.lines();
    add_number16(bytes, lines.len() as u16)?;
    add_lines(bytes, lines)
}

/// Adds lines.
#[tactic(auto, using(crate::proofs::Lines::short_at))]
fn add_lines(bytes: &mut Vec<u8>, lines: &[Line]) -> Result<(), WantOfMemory>
    requires { All (λ line. length line ≤ most_line_glyphs) (map glyphs_in lines.now) }
    ensures { OnOk result (bytes.new.items ≡ bytes.old.items ++ flat_map line_bytes (map glyphs_in lines.now)) }
{
    for line in lines {
        add_line(bytes, line)?;
    }
    Ok(())
}
