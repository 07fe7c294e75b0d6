ghost use Rattle.std.specs.Prelude.{◌≡◌, ◌≢◌, ◌<◌, ◌∷◌, [], ◌++◌, None, Some, List, IfOk, OnOk, MatchOption, length};
ghost use Rattle.std.specs.Option.{option_copied};
ghost use Rattle.apl_arrays.specs.Array.{PlainArray};
ghost use Rattle.apl_arrays.specs.Glyph.{line_utf8};
ghost use Rattle.line_text.specs.Lines.{line_text};
ghost use Rattle.sv_text.specs.Value.{IsValue};
ghost use Rattle.sv_text.specs.ValueText.{array_text};
ghost use Rattle.aux_components.specs.File.{AreComponents, AreNoComponents, components_changed, component, file_bytes};

use apl_arrays::{Array, GlyphRefused, Line, WantOfMemory, glyphs_of};
use line_text::{add_line, first_line};
use std::alloc::Global;
use sv_text::{ValueRefused, value_of, value_text};

/// The most bytes of a component file.
pub(crate) const FILE_LIMIT: usize = 4_194_304;

/// The components of a file of these bytes, or `None` where they are no component file. It takes memory for the components,
/// and for each line as it is read.
pub(crate) fn components_of(alloc: Global, bytes: &[u8]) -> Result<Option<Vec<Array>>, WantOfMemory>
    ensures { IfOk result (λ file. MatchOption file (AreNoComponents bytes.now) (λ arrays. AreComponents bytes.now arrays.items)) }
{
    if bytes.len() > FILE_LIMIT {
        return Ok(None);
    }
    let mut arrays = Vec::new(alloc);
    let mut rest = bytes;
    while let Some((line, behind)) = first_line(rest) {
        match component_in(alloc, line)? {
            Some(array) => arrays.push(array)?,
            None => return Ok(None),
        }
        rest = behind;
    }
    Ok(up_to_end(arrays, rest))
}

// The components, where nothing is left behind the last line.
fn up_to_end(arrays: Vec<Array>, rest: &[u8]) -> Option<Vec<Array>>
    ensures { MatchOption result (0 < length rest.now) (λ all. (rest.now ≡ []) × (all.items ≡ arrays.items)) }
{
    if rest.is_empty() { Some(arrays) } else { None }
}

// The array whose text the bytes of a line spell, or `None` where they spell no array's.
fn component_in(alloc: Global, line: &[u8]) -> Result<Option<Array>, WantOfMemory>
    ensures { IfOk result (λ found. MatchOption found ((array : PlainArray) → IsValue array → line.now ≢ line_utf8 (array_text array)) (λ array. IsValue array × (line.now ≡ line_utf8 (array_text array)))) }
{
    match glyphs_of(alloc, line) {
        Ok(glyphs) => array_in(alloc, &glyphs),
        Err(GlyphRefused::BadGlyph(_)) => Ok(None),
        Err(GlyphRefused::WantOfMemory) => Err(WantOfMemory),
    }
}

// The array whose text these glyphs are, or `None` where they are no array's.
fn array_in(alloc: Global, line: &Line) -> Result<Option<Array>, WantOfMemory>
    ensures { IfOk result (λ found. MatchOption found ((array : PlainArray) → IsValue array → line.now.items ≢ array_text array) (λ array. IsValue array × (line.now.items ≡ array_text array))) }
{
    match value_of(alloc, line) {
        Ok(array) => Ok(Some(array)),
        Err(ValueRefused::BadValue) => Ok(None),
        Err(ValueRefused::WantOfMemory) => Err(WantOfMemory),
    }
}

/// The component of a number, from 1, where there is one.
pub(crate) fn component(arrays: &[Array], number: u32) -> Option<&Array>
    ensures { option_copied result ≡ component number arrays.now }
{
    if number == 0 {
        None
    } else {
        arrays.get(number as usize - 1)
    }
}

/// The bytes of a file of these components with one change: an array comes in the place of the component of a number, or
/// without a number goes last; `None` where there is no such component. It takes memory for the bytes.
pub(crate) fn changed_bytes(
    alloc: Global,
    arrays: &[Array],
    number: Option<u32>,
    value: &Array,
) -> Result<Option<Vec<u8>>, WantOfMemory>
    ensures { IfOk result (λ found. MatchOption found (components_changed number arrays.now value.now ≡ None)
        (λ bytes. (all : List PlainArray) × (components_changed number arrays.now value.now ≡ Some all) × (bytes.items ≡ file_bytes all))) }
{
    match number {
        None => Ok(Some(bytes_around(alloc, arrays, value, &[])?)),
        Some(number) => replaced_bytes(alloc, arrays, number as usize, value),
    }
}

// The bytes of a file in which an array comes in the place of a component, where there is one of that number.
fn replaced_bytes(
    alloc: Global,
    arrays: &[Array],
    number: usize,
    value: &Array,
) -> Result<Option<Vec<u8>>, WantOfMemory>
    ensures { IfOk result (λ found. MatchOption found (components_changed (Some number) arrays.now value.now ≡ None)
        (λ bytes. (all : List PlainArray) × (components_changed (Some number) arrays.now value.now ≡ Some all) × (bytes.items ≡ file_bytes all))) }
{
    if number == 0 || number > arrays.len() {
        return Ok(None);
    }
    let bytes = bytes_around(alloc, &arrays[..number - 1], value, &arrays[number..])?;
    Ok(Some(bytes))
}

// The bytes of a file in which an array stands between others.
fn bytes_around(
    alloc: Global,
    before: &[Array],
    value: &Array,
    behind: &[Array],
) -> Result<Vec<u8>, WantOfMemory>
    ensures { IfOk result (λ bytes. bytes.items ≡ file_bytes (before.now ++ value.now ∷ behind.now)) }
{
    let mut bytes = Vec::new(alloc);
    add_components(alloc, &mut bytes, before)?;
    add_component(alloc, &mut bytes, value)?;
    add_components(alloc, &mut bytes, behind)?;
    Ok(bytes)
}

// Adds a line for each array. Where memory runs out, a part of them may stand there.
fn add_components(alloc: Global, bytes: &mut Vec<u8>, arrays: &[Array]) -> Result<(), WantOfMemory>
    ensures { OnOk result (bytes.new.items ≡ bytes.old.items ++ file_bytes arrays.now) }
{
    for array in arrays {
        add_component(alloc, bytes, array)?;
    }
    Ok(())
}

// Adds the text of an array as a line. Where memory runs out, a part of it may stand there.
fn add_component(alloc: Global, bytes: &mut Vec<u8>, array: &Array) -> Result<(), WantOfMemory>
    ensures { OnOk result (bytes.new.items ≡ bytes.old.items ++ line_text (array_text array.now)) }
{
    let line = value_text(alloc, array)?;
    add_line(bytes, &line)
}
