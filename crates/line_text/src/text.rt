ghost use Rattle.std.specs.Prelude.{◌≡◌, ◌+◌, ◌<◌, ◌≤◌, All, FitsSigned, ◌∷◌, [], ◌++◌, IsTrue, IsOk, OnOk, OnErr, map, length, decimal, replicate};
ghost use Rattle.std.specs.Int.{w64};
ghost use Rattle.std.specs.List.{list_all};
ghost use Rattle.apl_arrays.specs.Front.{KeepsFront};
ghost use Rattle.apl_arrays.specs.Glyph.{blank};
ghost use Rattle.line_text.specs.Number.{number_text};
ghost use Rattle.line_text.specs.Spaced.{is_plain, spaced};

use crate::number::{add_count, add_number};
use apl_arrays::{Glyph, Line, WantOfMemory};

/// Adds printable ASCII at the end of a line. Where there is room for it, it is granted and takes no memory, else it
/// takes memory for more; where that runs out, a part of the text may stand there.
pub fn add_text(line: &mut Line, text: &str) -> Result<(), WantOfMemory>
    requires { IsTrue (list_all is_plain text.now) }
    ensures text { OnOk result (line.new.items ≡ line.old.items ++ text.now) }
    ensures front { OnErr result (KeepsFront line.old.items line.new.items) }
    ensures granted { length text.now ≤ line.old.room → IsOk result }
    ensures room { length text.now ≤ line.old.room → line.new.room + length text.now ≡ line.old.room }
{
    for byte in text.as_bytes() {
        line.push(Glyph::with_code(*byte))?;
    }
    Ok(())
}

/// Adds glyphs at the end of a line. Where there is room for them it is granted and takes no memory, else it takes
/// memory for more; where that runs out, some of the glyphs may stand there.
pub fn add_glyphs(line: &mut Line, glyphs: &[Glyph]) -> Result<(), WantOfMemory>
    ensures text { OnOk result (line.new.items ≡ line.old.items ++ glyphs.now) }
    ensures front { OnErr result (KeepsFront line.old.items line.new.items) }
    ensures granted { length glyphs.now ≤ line.old.room → IsOk result }
    ensures room { length glyphs.now ≤ line.old.room → line.new.room + length glyphs.now ≡ line.old.room }
{
    for glyph in glyphs {
        line.push(*glyph)?;
    }
    Ok(())
}

/// Adds a blank at the end of a line. Where there is room it is granted and takes no memory, else it takes memory for
/// more. `WantOfMemory` leaves the line as it was.
pub fn add_blank(line: &mut Line) -> Result<(), WantOfMemory>
    ensures text { OnOk result (line.new.items ≡ line.old.items ++ blank ∷ []) }
    ensures err { OnErr result (line.new ≡ line.old) }
    ensures granted { 0 < line.old.room → IsOk result }
    ensures room { 0 < line.old.room → line.new.room + 1 ≡ line.old.room }
{
    line.push(Glyph::BLANK)
}

/// Adds so many blanks at the end of a line. It takes memory for them; where that runs out, some of the blanks may stand
/// there.
pub fn add_blanks(line: &mut Line, count: usize) -> Result<(), WantOfMemory>
    ensures text { OnOk result (line.new.items ≡ line.old.items ++ replicate count blank) }
    ensures front { OnErr result (KeepsFront line.old.items line.new.items) }
{
    for _ in 0..count {
        add_blank(line)?;
    }
    Ok(())
}

/// Adds numbers at the end of a line, with one blank between each two. It takes memory for them; where that runs out, a
/// part of the text may stand there.
pub fn add_numbers(line: &mut Line, numbers: &[i64]) -> Result<(), WantOfMemory>
    ensures text { OnOk result (line.new.items
        ≡ line.old.items ++ spaced (map number_text numbers.now)) }
    ensures front { OnErr result (KeepsFront line.old.items line.new.items) }
    ensures printable { OnOk result (All (λ number. FitsSigned w64 number) numbers.now) }
{
    let Some((first, others)) = numbers.split_first() else {
        return Ok(());
    };
    add_number(line, *first)?;
    for number in others {
        add_blank(line)?;
        add_number(line, *number)?;
    }
    Ok(())
}

/// Adds counts at the end of a line, with one blank between each two. It takes memory for them; where that runs out, a
/// part of the text may stand there.
pub fn add_counts(line: &mut Line, counts: &[u32]) -> Result<(), WantOfMemory>
    ensures text { OnOk result (line.new.items ≡ line.old.items ++ spaced (map decimal counts.now)) }
    ensures front { OnErr result (KeepsFront line.old.items line.new.items) }
{
    let Some((first, others)) = counts.split_first() else {
        return Ok(());
    };
    add_count(line, u64::from(*first))?;
    for count in others {
        add_blank(line)?;
        add_count(line, u64::from(*count))?;
    }
    Ok(())
}
