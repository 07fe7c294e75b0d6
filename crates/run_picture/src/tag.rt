ghost use Rattle.std.specs.Prelude.{◌≡◌, ◌∷◌, [], ◌++◌, OnOk, IsTrue, decimal};
ghost use Rattle.std.specs.List.{flat_map, list_all};
ghost use Rattle.apl_arrays.specs.Glyph.{less};
ghost use Rattle.line_text.specs.Spaced.{is_plain};
ghost use Rattle.run_picture.specs.Escape.{escape, escaped};
ghost use Rattle.run_picture.specs.Tag.{attribute_text, finish_text, size_of, word_of};

use apl_arrays::{Glyph, Line, WantOfMemory};
use line_text::{add_count, add_text};

/// &.
const AMPERSAND: u8 = b'&';

/// Adds the front of a tag, its name. It takes memory for it.
pub(crate) fn add_front(line: &mut Line, name: &str) -> Result<(), WantOfMemory>
    requires { IsTrue (list_all is_plain name.now) }
    ensures { OnOk result (line.new.items ≡ line.old.items ++ (less ∷ name.now)) }
{
    line.push(Glyph::LESS)?;
    add_text(line, name)
}

// Adds the front of an attribute, up to its value.
fn begin_attribute(line: &mut Line, name: &str) -> Result<(), WantOfMemory>
    requires { IsTrue (list_all is_plain name.now) }
    ensures { OnOk result (line.new.items ≡ line.old.items ++ (32 ∷ (name.now ++ 61 ∷ 34 ∷ []))) }
{
    add_text(line, " ")?;
    add_text(line, name)?;
    add_text(line, "=\"")
}

/// Adds an attribute that is a word. It takes memory for it.
pub(crate) fn add_word_of(line: &mut Line, name: &str, word: &str) -> Result<(), WantOfMemory>
    requires name { IsTrue (list_all is_plain name.now) }
    requires word { IsTrue (list_all is_plain word.now) }
    ensures { OnOk result (line.new.items ≡ line.old.items ++ attribute_text (word_of name.now word.now)) }
{
    begin_attribute(line, name)?;
    add_text(line, word)?;
    add_text(line, "\"")
}

/// Adds an attribute that is a number. It takes memory for it.
pub(crate) fn add_size_of(line: &mut Line, name: &str, size: u64) -> Result<(), WantOfMemory>
    requires { IsTrue (list_all is_plain name.now) }
    ensures { OnOk result (line.new.items ≡ line.old.items ++ attribute_text (size_of name.now size)) }
{
    begin_attribute(line, name)?;
    add_count(line, size)?;
    add_text(line, "\"")
}

// Adds a glyph as it stands in a text.
fn add_escape(line: &mut Line, glyph: Glyph) -> Result<(), WantOfMemory>
    ensures { OnOk result (line.new.items ≡ line.old.items ++ escape glyph) }
{
    if glyph.code() == AMPERSAND {
        add_text(line, "&amp;")
    } else if glyph == Glyph::LESS {
        add_text(line, "&lt;")
    } else if glyph == Glyph::GREATER {
        add_text(line, "&gt;")
    } else {
        line.push(glyph)
    }
}

/// Adds a text as it stands in markup. It takes memory for it.
pub(crate) fn add_escaped(line: &mut Line, text: &[Glyph]) -> Result<(), WantOfMemory>
    ensures { OnOk result (line.new.items ≡ line.old.items ++ escaped text.now) }
{
    for glyph in text {
        add_escape(line, *glyph)?;
    }
    Ok(())
}

/// Adds what finishes a name. It takes memory for it.
pub(crate) fn add_finish(line: &mut Line, name: &str) -> Result<(), WantOfMemory>
    requires { IsTrue (list_all is_plain name.now) }
    ensures { OnOk result (line.new.items ≡ line.old.items ++ finish_text name.now) }
{
    add_text(line, "</")?;
    add_text(line, name)?;
    line.push(Glyph::GREATER)
}
