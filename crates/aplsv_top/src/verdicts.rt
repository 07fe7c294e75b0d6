ghost use Rattle.std.specs.Prelude.{◌≡◌, ◌++◌, IfOk, OnOk, codes, decimal};
ghost use Rattle.line_text.specs.Lines.{line_text};
ghost use Rattle.aplsv_top.specs.Checks.{verdict_line};

use crate::summaries::add_counted;
use apl_arrays::{Bytes, List, WantOfMemory};
use check_rules::Verdict;
use line_text::{add_count, add_line, add_text, add_word};
use std::alloc::Global;

// Adds a line of a user and the number of one of its lines.
fn add_differing(
    alloc: Global,
    bytes: &mut Vec<u8>,
    user: u32,
    number: u64,
) -> Result<(), WantOfMemory>
    ensures { OnOk result (bytes.new.items ≡ bytes.old.items ++ line_text (codes "bad line " ++ (decimal user ++ (codes " " ++ decimal number)))) }
{
    let mut line = List::new(alloc);
    add_text(&mut line, "bad line ")?;
    add_count(&mut line, u64::from(user))?;
    add_text(&mut line, " ")?;
    add_count(&mut line, number)?;
    add_line(bytes, &line)
}

/// The line that says what was found of a text, with its line feed. It takes memory for the bytes.
pub(crate) fn line_of(alloc: Global, found: Verdict) -> Result<Bytes, WantOfMemory>
    ensures { IfOk result (λ bytes. bytes.items ≡ verdict_line found) }
{
    let mut bytes = Vec::new(alloc);
    match found {
        Verdict::Yes => add_word(alloc, &mut bytes, "legal")?,
        Verdict::Text(offset) => add_counted(alloc, &mut bytes, "bad text ", offset)?,
        Verdict::Entry(place) => add_counted(alloc, &mut bytes, "bad entry ", place)?,
        Verdict::Unfinished(user) => {
            add_counted(alloc, &mut bytes, "unfinished ", u64::from(user))?
        }
        Verdict::Line { user, line } => add_differing(alloc, &mut bytes, user, line)?,
    }
    Ok(List::from(bytes))
}
