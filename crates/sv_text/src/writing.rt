ghost use Rattle.std.specs.Prelude.{◌≡◌, All, IfOk, IfSome, ◌∷◌, [], ◌++◌, OnOk, length, OnErr};
ghost use Rattle.std.specs.List.{flat_map};
ghost use Rattle.apl_arrays.specs.Array.{seen_items, PlainArray};
ghost use Rattle.apl_arrays.specs.Front.{KeepsFront};
ghost use Rattle.apl_arrays.specs.Glyph.{IsGlyph};
ghost use Rattle.sv_text.specs.Printable.{ArePrintableItems, IsPrintableArray};
ghost use Rattle.sv_text.specs.ValueText.{char_text, kind_text, items_text, array_text, value_text};

use apl_arrays::{Array, Glyph, ItemsRef, Line, List, WantOfMemory};
use line_text::{add_counts, add_numbers, add_text};
use std::alloc::Global;

// Adds a character as it stands between quotes.
fn add_char(line: &mut Line, glyph: Glyph) -> Result<(), WantOfMemory>
    ensures text { OnOk result (line.new.items ≡ line.old.items ++ char_text glyph) }
    ensures front { OnErr result (KeepsFront line.old.items line.new.items) }
    ensures printable { IsGlyph glyph }
{
    if glyph == Glyph::QUOTE {
        add_text(line, "''")
    } else {
        line.push(glyph)
    }
}

// Adds characters as they stand between quotes.
fn add_chars(line: &mut Line, glyphs: &[Glyph]) -> Result<(), WantOfMemory>
    ensures text { OnOk result (line.new.items ≡ line.old.items ++ flat_map char_text glyphs.now) }
    ensures front { OnErr result (KeepsFront line.old.items line.new.items) }
    ensures printable { OnOk result (All IsGlyph glyphs.now) }
{
    for glyph in glyphs {
        add_char(line, *glyph)?;
    }
    Ok(())
}

// Adds the letter of the kind.
fn add_kind(line: &mut Line, items: ItemsRef<'_>) -> Result<(), WantOfMemory>
    ensures text { OnOk result (line.new.items ≡ line.old.items ++ kind_text (seen_items items.entry)) }
    ensures front { OnErr result (KeepsFront line.old.items line.new.items) }
{
    match items {
        ItemsRef::Numbers(_) => add_text(line, "N"),
        ItemsRef::Chars(_) => add_text(line, "C"),
    }
}

// Adds the items.
fn add_items(line: &mut Line, items: ItemsRef<'_>) -> Result<(), WantOfMemory>
    ensures text { OnOk result (line.new.items
        ≡ line.old.items ++ items_text (seen_items items.entry)) }
    ensures front { OnErr result (KeepsFront line.old.items line.new.items) }
    ensures printable { OnOk result (ArePrintableItems (seen_items items.entry)) }
{
    match items {
        ItemsRef::Numbers(numbers) => add_numbers(line, numbers),
        ItemsRef::Chars(glyphs) => {
            add_text(line, "'")?;
            add_chars(line, glyphs)?;
            add_text(line, "'")
        }
    }
}

/// Adds an array at the end of a line: its kind, its axes, its items. It takes memory for them; where that runs out, a
/// part of the text may stand there, behind what stood there before.
pub fn add_array(line: &mut Line, array: &Array) -> Result<(), WantOfMemory>
    ensures text { OnOk result (line.new.items ≡ line.old.items ++ array_text array.now) }
    ensures front { OnErr result (KeepsFront line.old.items line.new.items) }
    ensures printable { OnOk result (IsPrintableArray array.now) }
{
    add_kind(line, array.items())?;
    add_text(line, "(")?;
    add_counts(line, array.shape())?;
    add_text(line, ")")?;
    add_items(line, array.items())
}

/// Adds a value at the end of a line, or that there is none. It takes memory for it; where that runs out, a part of the
/// text may stand there, behind what stood there before.
pub fn add_value(line: &mut Line, value: &Option<Array>) -> Result<(), WantOfMemory>
    ensures text { OnOk result (line.new.items ≡ line.old.items ++ value_text value.now) }
    ensures front { OnErr result (KeepsFront line.old.items line.new.items) }
    ensures printable { OnOk result (IfSome value.now (λ array. IsPrintableArray array)) }
{
    match value {
        None => add_text(line, "none"),
        Some(array) => add_array(line, array),
    }
}

/// The text of an array tells the array: no other has it. The call does nothing.
pub fn a_text_tells_its_array()
    ensures { (array other : PlainArray) → IsPrintableArray array → IsPrintableArray other → array_text array ≡ array_text other → array ≡ other }
{}

/// The text of an array: its kind, its axes, its items. It takes memory for the line.
pub fn value_text(alloc: Global, array: &Array) -> Result<Line, WantOfMemory>
    ensures { IfOk result (λ line. line.items ≡ array_text array.now) }
{
    let mut line = List::new(alloc);
    add_array(&mut line, array)?;
    Ok(line)
}
