use crate::{number_of, numbers_of, push_numbers, push_quoted, quoted, stated, unescaped};
use anyhow::{Context, Result, bail};
use apl_arrays::{Array, Fail, Items, ItemsRef, List, NumberList, Way, glyphs_of};
use std::alloc::Global;

/// The axes that a text names, with blanks between.
pub fn axes_of(alloc: Global, text: &str) -> Result<Vec<u32>> {
    let mut shape = Vec::new(alloc);
    for word in text.split_whitespace() {
        shape.push(word.parse::<u32>().context("no axis")?)?;
    }
    Ok(shape)
}

/// The characters between quotes, where a quote among them is written twice.
pub(crate) fn chars_of(alloc: Global, text: &str) -> Result<Items> {
    let plain = quoted(text)?.replace(alloc, "''", "'")?;
    Ok(Items::Chars(glyphs_of(alloc, plain.as_bytes())?))
}

fn items_of(alloc: Global, kind: &str, text: &str) -> Result<Items> {
    match kind {
        "N" => Ok(Items::Numbers(NumberList::from(numbers_of(alloc, text)?))),
        "C" => chars_of(alloc, text),
        _ => bail!("no kind: {kind}"),
    }
}

/// The array that a field says: its kind, N or C, its shape in parentheses, and its items. It may have escapes.
pub fn array_of(alloc: Global, field: &str) -> Result<Array> {
    let text = unescaped(alloc, field)?;
    let (kind, rest) = text.split_once("(").context("no shape")?;
    let (axes, items) = rest.split_once(")").context("no end of a shape")?;
    let items = items_of(alloc, kind, items)?;
    Ok(Array::try_new(alloc, &axes_of(alloc, axes)?, items)?)
}

/// The array that a field says, or none where it is `-`.
pub fn optional_of(alloc: Global, field: &str) -> Result<Option<Array>> {
    stated(field).map(|text| array_of(alloc, text)).transpose()
}

/// A vector of so many zeros.
pub fn zeros(alloc: Global, count: u32) -> Result<Array> {
    let numbers = List::from(vec![in alloc; 0_i64; count as usize]?);
    Ok(Array::try_new(alloc, &[count], Items::Numbers(NumberList::from(numbers)))?)
}

/// The text of an array, as fields have it.
pub fn array_text(alloc: Global, array: &Array) -> Result<String> {
    let kind = if array.is_chars() { "C" } else { "N" };
    let mut axes = String::new(alloc);
    for axis in array.shape() {
        write!(axes, " {axis}")?;
    }
    let mut text = format!(in alloc; "{kind}({})", axes.trim_start())?;
    match array.items() {
        ItemsRef::Numbers(numbers) => push_numbers(&mut text, numbers)?,
        ItemsRef::Chars(line) => push_quoted(alloc, &mut text, line)?,
    }
    Ok(text)
}

/// The text of the report with which a call was refused.
pub fn report_text(fail: Fail) -> Result<&'static str> {
    match fail {
        Fail::Report(report) => Ok(report.text()),
        Fail::WantOfMemory => bail!("out of memory"),
    }
}

/// The text of the array that a call gave, or of its report.
pub fn outcome_text(alloc: Global, outcome: Result<Array, Fail>) -> Result<String> {
    match outcome {
        Ok(array) => array_text(alloc, &array),
        Err(fail) => Ok(String::from_str(alloc, report_text(fail)?)?),
    }
}

/// Which axis the sign of a function or of an operator takes where none is named: the last, or the first.
pub fn way_of(sign: &str) -> Result<Way> {
    match sign {
        "⌽" | "/" | "\\" => Ok(Way::Last),
        "⊖" | "⌿" | "⍀" => Ok(Way::First),
        _ => bail!("no function along an axis: {sign}"),
    }
}

/// The number that a field names as an axis, or none where it is `-`.
pub fn axis_of(alloc: Global, field: &str) -> Result<Option<i64>> {
    stated(field).map(|word| number_of(alloc, word)).transpose()
}
