ghost use Rattle.std.specs.Prelude.{◌≡◌, length};
ghost use Rattle.apl_arrays.specs.Glyph.{blank};
ghost use Rattle.text_reader.specs.Reading.{Gives, begins_with, read_list, read_behind, read_step};
ghost use Rattle.bundle_text.specs.HeadingReading.{read_counts, read_next_count};

use apl_arrays::{Glyph, List};
use std::alloc::Global;
use text_reader::{Cursor, Unread};

/// Numbers of a heading.
pub type Counts = List<u64>;

/// Reads numbers of any length, at least one, with one blank between each two: as many as stand there. A number past the
/// greatest `u64` is that one. It takes memory for the numbers.
#[tactic(auto, unfolding(crate::specs::HeadingReading::read_counts))]
pub fn read_counts(alloc: Global, cursor: &mut Cursor<'_>) -> Result<Counts, Unread>
    ensures { Gives (λ numbers. (numbers.items, cursor.new)) result (read_counts cursor.old) }
{
    let mut numbers = List::new(alloc);
    let first = cursor.count()?;
    numbers.push(first)?;
    add_counts(cursor, &mut numbers)?;
    Ok(numbers)
}

// Reads the numbers that follow, each behind a blank.
fn add_counts(cursor: &mut Cursor<'_>, numbers: &mut Counts) -> Result<(), Unread>
    ensures { Gives (λ _. (numbers.new.items, cursor.new)) result (read_behind numbers.old.items (read_list (begins_with blank) read_next_count (length cursor.old) cursor.old)) }
{
    let most = cursor.left();
    for _ in 0..most {
        add_count(cursor, numbers)?;
    }
    Ok(())
}

// Reads a number more, where a blank stands.
fn add_count(cursor: &mut Cursor<'_>, numbers: &mut Counts) -> Result<(), Unread>
    ensures { Gives (λ _. (numbers.new.items, cursor.new)) result (read_step (begins_with blank) read_next_count numbers.old.items cursor.old) }
{
    if goes_on(cursor) {
        let number = read_next(cursor)?;
        numbers.push(number)?;
        Ok(())
    } else {
        Ok(())
    }
}

// Whether a blank stands there.
fn goes_on(cursor: &Cursor<'_>) -> bool
    ensures { result ≡ begins_with blank cursor.now }
{
    cursor.first() == Some(Glyph::BLANK)
}

// Reads a number behind a blank.
#[tactic(auto, unfolding(crate::specs::HeadingReading::read_next_count))]
fn read_next(cursor: &mut Cursor<'_>) -> Result<u64, Unread>
    ensures { Gives (λ number. (number, cursor.new)) result (read_next_count cursor.old) }
{
    cursor.text(b" ")?;
    cursor.count()
}
