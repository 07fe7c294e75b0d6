ghost use Rattle.std.specs.Prelude.{◌≡◌, ◌≤◌, ◌^◌, ◌+◌, IfOk, OnOk, length, pos, neg_ℤ};
ghost use Rattle.text_reader.specs.Reading.{Gives, always, read_list, read_behind, read_step};
ghost use Rattle.sv_text.specs.ValueReading.{read_integer, read_negative, read_next_integer, read_numbers, read_positive};

use apl_arrays::{Glyph, List};
use std::alloc::Global;
use text_reader::{Cursor, Unread};

/// Reads so many numbers, with one blank between each two. It takes memory for them.
#[tactic(auto, unfolding(crate::specs::ValueReading::read_numbers))]
pub(crate) fn read_numbers(
    alloc: Global,
    cursor: &mut Cursor<'_>,
    count: usize,
) -> Result<List<i64>, Unread>
    ensures value { Gives (λ list. (list.items, cursor.new)) result (read_numbers count cursor.old) }
    ensures count { IfOk result (λ list. length list.items ≡ count) }
{
    let mut numbers = List::new(alloc);
    if count == 0 {
        Ok(numbers)
    } else {
        let first = read_integer(cursor)?;
        numbers.push(first)?;
        add_numbers(cursor, &mut numbers, count - 1)?;
        Ok(numbers)
    }
}

// Reads so many numbers more, each behind a blank.
fn add_numbers(cursor: &mut Cursor<'_>, numbers: &mut List<i64>, count: usize) -> Result<(), Unread>
    ensures value { Gives (λ _. (numbers.new.items, cursor.new)) result (read_behind numbers.old.items (read_list always read_next_integer count cursor.old)) }
    ensures count { OnOk result (length numbers.new.items ≡ length numbers.old.items + count) }
{
    for _ in 0..count {
        add_number(cursor, numbers)?;
    }
    Ok(())
}

// Reads a number more, behind a blank.
fn add_number(cursor: &mut Cursor<'_>, numbers: &mut List<i64>) -> Result<(), Unread>
    ensures value { Gives (λ _. (numbers.new.items, cursor.new)) result (read_step always read_next_integer numbers.old.items cursor.old) }
    ensures one { OnOk result (length numbers.new.items ≡ length numbers.old.items + 1) }
{
    let number = read_next_integer(cursor)?;
    numbers.push(number)?;
    Ok(())
}

// Reads a number behind a blank.
#[tactic(auto, unfolding(crate::specs::ValueReading::read_next_integer))]
fn read_next_integer(cursor: &mut Cursor<'_>) -> Result<i64, Unread>
    ensures { Gives (λ number. (number, cursor.new)) result (read_next_integer cursor.old) }
{
    cursor.text(b" ")?;
    read_integer(cursor)
}

// Reads a number, behind ¯ where it is negative.
fn read_integer(cursor: &mut Cursor<'_>) -> Result<i64, Unread>
    ensures { Gives (λ number. (number, cursor.new)) result (read_integer cursor.old) }
{
    if cursor.first() == Some(Glyph::OVERBAR) {
        cursor.skip();
        read_negative(cursor)
    } else {
        read_positive(cursor)
    }
}

// Reads the magnitude of a negative number.
fn read_negative(cursor: &mut Cursor<'_>) -> Result<i64, Unread>
    ensures { Gives (λ number. (number, cursor.new)) result (read_negative cursor.old) }
{
    let magnitude = cursor.number(1, 1 << 63)?;
    Ok(negative(magnitude))
}

// Reads a number that is not negative.
fn read_positive(cursor: &mut Cursor<'_>) -> Result<i64, Unread>
    ensures { Gives (λ number. (number, cursor.new)) result (read_positive cursor.old) }
{
    let magnitude = cursor.number(0, (1 << 63) - 1)?;
    Ok(magnitude as i64)
}

// The negative number of a magnitude.
fn negative(magnitude: u64) -> i64
    requires { magnitude ≤ 2 ^ 63 }
    ensures { result ≡ neg_ℤ (pos magnitude) }
{
    if magnitude < 1 << 63 {
        -(magnitude as i64)
    } else {
        i64::MIN
    }
}
