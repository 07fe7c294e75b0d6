ghost use Rattle.std.specs.Prelude.{◌≡◌, IfOk, IsTrue, MatchOption, None, Some, length, nat_le, ◌↔◌};
ghost use Rattle.std.specs.List.{list_all};
ghost use Rattle.line_text.specs.Lines.{end_line};
ghost use Rattle.text_reader.specs.Reading.{Gives, IsLeft};
ghost use Rattle.bundle_text.specs.Heading.{IsHeadingLine, IsNoHeading, plain_heading};
ghost use Rattle.bundle_text.specs.HeadingReading.{read_end, read_file, read_heading, read_later_heading, read_readings, read_turns, read_user};
ghost use Rattle.bundle_text.specs.Limits.{greatest_reading};

use crate::counts::{Counts, read_counts};
use apl_arrays::{FIRST_USER, FileName, Glyph, LAST_USER, WantOfMemory};
use std::alloc::Global;
use text_reader::{Cursor, Unread};

/// The greatest reading of a clock.
const READING_MAX: u64 = 9_223_372_036_854_775_807;

/// A heading of a bundle, or its end.
#[derive(Debug, Drop)]
pub enum Heading {
    /// The lines of a user come.
    User(u32),
    /// The parties of turns. A number past the greatest `u64` is that one.
    Order(Counts),
    /// The lines of a file come.
    File(FileName),
    /// Readings of the clock.
    Clock(Counts),
    /// Nothing comes.
    End,
}

// Reads the heading of a user.
#[tactic(auto, unfolding(crate::specs::HeadingReading::read_user))]
fn read_user(cursor: &mut Cursor<'_>) -> Result<Heading, Unread>
    ensures { Gives (λ heading. (plain_heading heading, cursor.new)) result (read_user cursor.old) }
{
    cursor.text(b"user ")?;
    let number = cursor.number(u64::from(FIRST_USER), u64::from(LAST_USER))?;
    Ok(Heading::User(number as u32))
}

// Reads the heading of turns.
#[tactic(auto, unfolding(crate::specs::HeadingReading::read_turns))]
fn read_turns(alloc: Global, cursor: &mut Cursor<'_>) -> Result<Heading, Unread>
    ensures { Gives (λ heading. (plain_heading heading, cursor.new)) result (read_turns cursor.old) }
{
    cursor.text(b"order ")?;
    Ok(Heading::Order(read_counts(alloc, cursor)?))
}

// Reads the heading of a file.
#[tactic(auto, unfolding(crate::specs::HeadingReading::read_file))]
fn read_file(alloc: Global, cursor: &mut Cursor<'_>) -> Result<Heading, Unread>
    ensures { Gives (λ heading. (plain_heading heading, cursor.new)) result (read_file cursor.old) }
{
    cursor.text(b"file ")?;
    Ok(Heading::File(cursor.file_name(alloc)?))
}

// Whether all numbers are readings of a clock.
fn are_readings(numbers: &[u64]) -> bool
    ensures { result ≡ list_all (λ number. nat_le number greatest_reading) numbers.now }
{
    numbers.iter().all(|number| *number <= READING_MAX)
}

// Reads the heading of readings.
#[tactic(auto, unfolding(crate::specs::HeadingReading::read_readings))]
fn read_readings(alloc: Global, cursor: &mut Cursor<'_>) -> Result<Heading, Unread>
    ensures { Gives (λ heading. (plain_heading heading, cursor.new)) result (read_readings cursor.old) }
{
    cursor.text(b"clock ")?;
    let numbers = read_counts(alloc, cursor)?;
    if are_readings(numbers.as_slice()) {
        Ok(Heading::Clock(numbers))
    } else {
        Err(cursor.stops())
    }
}

// Reads the end.
#[tactic(auto, unfolding(crate::specs::HeadingReading::read_end))]
fn read_end(cursor: &mut Cursor<'_>) -> Result<Heading, Unread>
    ensures { Gives (λ heading. (plain_heading heading, cursor.new)) result (read_end cursor.old) }
{
    cursor.text(b"end")?;
    Ok(Heading::End)
}

// Reads the heading of a file or of readings, by the letter with which its word begins, or the end.
#[tactic(auto, unfolding(crate::specs::HeadingReading::read_later_heading))]
fn read_later_heading(alloc: Global, cursor: &mut Cursor<'_>) -> Result<Heading, Unread>
    ensures { Gives (λ heading. (plain_heading heading, cursor.new)) result (read_later_heading cursor.old) }
{
    match cursor.first() {
        Some(first) if first.code() == b'f' => read_file(alloc, cursor),
        Some(first) if first.code() == b'c' => read_readings(alloc, cursor),
        _ => read_end(cursor),
    }
}

// Reads a heading, by the letter with which its word begins.
#[tactic(auto, unfolding(crate::specs::HeadingReading::read_heading))]
fn read_heading(alloc: Global, cursor: &mut Cursor<'_>) -> Result<Heading, Unread>
    ensures { Gives (λ heading. (plain_heading heading, cursor.new)) result (read_heading cursor.old) }
{
    match cursor.first() {
        Some(first) if first.code() == b'u' => read_user(cursor),
        Some(first) if first.code() == b'o' => read_turns(alloc, cursor),
        _ => read_later_heading(alloc, cursor),
    }
}

// The heading that was read, where nothing is left behind it.
fn whole_heading(cursor: &Cursor<'_>, heading: Heading) -> Option<Heading>
    ensures whole { length cursor.now ≡ 0 → result ≡ Some heading }
    ensures more { (length cursor.now ≡ 0 → ⊥) → result ≡ None }
{
    if cursor.left() == 0 {
        Some(heading)
    } else {
        drop(heading);
        None
    }
}

// That there is no heading, unless memory ran out.
fn no_heading(why: Unread) -> Result<Option<Heading>, WantOfMemory>
    ensures { IfOk result (λ found. (found ≡ None) × IsLeft why) }
{
    match why {
        Unread::Left(_) => Ok(None),
        Unread::WantOfMemory => Err(WantOfMemory),
    }
}

/// The heading that a line is, or `None` where it is none. It takes memory for the numbers or the name of a heading.
pub fn heading_of(alloc: Global, line: &[Glyph]) -> Result<Option<Heading>, WantOfMemory>
    ensures { IfOk result (λ found. MatchOption found (IsNoHeading line.now) (λ heading. IsHeadingLine (plain_heading heading) line.now)) }
{
    let mut cursor = Cursor::new(line);
    match read_heading(alloc, &mut cursor) {
        Ok(heading) => Ok(whole_heading(&cursor, heading)),
        Err(why) => no_heading(why),
    }
}

/// Whether a line is the last one of a bundle.
pub fn is_end(line: &[u8]) -> bool
    ensures { IsTrue result ↔ (line.now ≡ end_line) }
{
    line == b"end".as_slice()
}
