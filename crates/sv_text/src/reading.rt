ghost use Rattle.std.specs.Prelude.{◌≡◌, OnErr, length};
ghost use Rattle.apl_arrays.specs.Array.{PlainArray};
ghost use Rattle.sv_text.specs.ReadsValue.{ReadsValue, ReadsThis, refusal};
ghost use Rattle.text_reader.specs.Reading.{Gives};
ghost use Rattle.sv_text.specs.Value.{IsValue};
ghost use Rattle.sv_text.specs.ValueReading.{read_array, read_value, read_numbers_array, read_chars_array};
ghost use Rattle.sv_text.specs.ValueText.{array_text};

use crate::chars::read_quoted;
use crate::numbers::read_numbers;
use crate::refused::ValueRefused;
use crate::shape::read_shape;
use apl_arrays::{Array, Items, Line, NumberList, count_of_elements};
use std::alloc::Global;
use text_reader::{Cursor, Unread};

/// The array whose text a line is. `BadValue` where it is no array's text, else `WantOfMemory`. It takes memory for the
/// array.
pub fn value_of(alloc: Global, line: &Line) -> Result<Array, ValueRefused>
    ensures value { ReadsValue result line.now.items }
    ensures again { (array : PlainArray) → IsValue array → line.now.items ≡ array_text array → ReadsThis result array }
{
    let mut cursor = Cursor::new(line.as_slice());
    match array_ahead(alloc, &mut cursor) {
        Ok(array) => whole_value(&cursor, array),
        Err(why) => Err(refused(why)),
    }
}

// Why the line is refused, where the reading stops so.
fn refused(why: Unread) -> ValueRefused
    ensures { result ≡ refusal why }
{
    match why {
        Unread::Left(_) => ValueRefused::BadValue,
        Unread::WantOfMemory => ValueRefused::WantOfMemory,
    }
}

// The array that was read, where nothing is left behind it.
fn whole_value(cursor: &Cursor<'_>, array: Array) -> Result<Array, ValueRefused>
    ensures whole { length cursor.now ≡ 0 → result ≡ Ok array }
    ensures more { (length cursor.now ≡ 0 → ⊥) → result ≡ Err ValueRefused.BadValue }
{
    if cursor.left() == 0 {
        Ok(array)
    } else {
        Err(ValueRefused::BadValue)
    }
}

/// Reads a value, which is an array or `none`. Where it reads none, the cursor stays where it was. It takes memory for the
/// array.
pub fn read_value(alloc: Global, cursor: &mut Cursor<'_>) -> Result<Option<Array>, Unread>
    ensures value { Gives (λ value. (value, cursor.new)) result (read_value cursor.old) }
    ensures stays { OnErr result (cursor.new ≡ cursor.old) }
{
    let mut ahead = cursor.ahead();
    let value = value_ahead(alloc, &mut ahead)?;
    *cursor = ahead;
    Ok(value)
}

/// Reads an array. Where it reads none, the cursor stays where it was. It takes memory for the array.
pub fn read_array(alloc: Global, cursor: &mut Cursor<'_>) -> Result<Array, Unread>
    ensures value { Gives (λ array. (array, cursor.new)) result (read_array cursor.old) }
    ensures stays { OnErr result (cursor.new ≡ cursor.old) }
{
    let mut ahead = cursor.ahead();
    let array = array_ahead(alloc, &mut ahead)?;
    *cursor = ahead;
    Ok(array)
}

// Reads a value, and moves on as far as it goes.
#[tactic(auto, unfolding(crate::specs::ValueReading::read_value))]
fn value_ahead(alloc: Global, cursor: &mut Cursor<'_>) -> Result<Option<Array>, Unread>
    ensures { Gives (λ value. (value, cursor.new)) result (read_value cursor.old) }
{
    match cursor.first() {
        Some(first) if first.code() == b'n' => {
            cursor.text(b"none")?;
            Ok(None)
        }
        _ => Ok(Some(array_ahead(alloc, cursor)?)),
    }
}

// Reads an array, and moves on as far as it goes.
#[tactic(auto, unfolding(crate::specs::ValueReading::read_array))]
fn array_ahead(alloc: Global, cursor: &mut Cursor<'_>) -> Result<Array, Unread>
    ensures { Gives (λ array. (array, cursor.new)) result (read_array cursor.old) }
{
    match cursor.first() {
        Some(first) if first.code() == b'N' => read_number_array(alloc, cursor),
        Some(first) if first.code() == b'C' => read_char_array(alloc, cursor),
        _ => Err(cursor.stops()),
    }
}

// Reads an array of numbers.
#[tactic(auto, unfolding(crate::specs::ValueReading::read_numbers_array))]
fn read_number_array(alloc: Global, cursor: &mut Cursor<'_>) -> Result<Array, Unread>
    ensures { Gives (λ array. (array, cursor.new)) result (read_numbers_array cursor.old) }
{
    cursor.text(b"N(")?;
    let shape = read_shape(alloc, cursor)?;
    let numbers = read_numbers(alloc, cursor, count_of_elements(shape.as_slice()))?;
    let items = Items::Numbers(NumberList::from(numbers));
    Ok(Array::shaped(alloc, shape.as_slice(), items)?)
}

// Reads an array of characters.
#[tactic(auto, unfolding(crate::specs::ValueReading::read_chars_array))]
fn read_char_array(alloc: Global, cursor: &mut Cursor<'_>) -> Result<Array, Unread>
    ensures { Gives (λ array. (array, cursor.new)) result (read_chars_array cursor.old) }
{
    cursor.text(b"C(")?;
    let shape = read_shape(alloc, cursor)?;
    let chars = read_quoted(alloc, cursor, count_of_elements(shape.as_slice()))?;
    Ok(Array::shaped(alloc, shape.as_slice(), Items::Chars(chars))?)
}
