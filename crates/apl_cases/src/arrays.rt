use anyhow::{Context, Result, bail, ensure};
use apl_arrays::{
    Array, ArrayRefused, Glyph, Item, Items, Line, List, NumberList, ShapeFault, shape_fault,
};
use apl_display::{format, lines_of};
use case_fields::{
    array_of, array_text, axes_of, number_of, outcome_text, push_lines, push_numbers, push_quoted,
};
use std::alloc::Global;

// What an array of a shape and items is. One that is made has both.
fn made_text(alloc: Global, shape: &[u32], items: Items) -> Result<&'static str> {
    let copy = items.copy(alloc)?;
    match Array::try_new(alloc, shape, items) {
        Err(ArrayRefused::TooLarge) => Ok("too large"),
        Err(ArrayRefused::BadShape) => Ok("bad shape"),
        Err(ArrayRefused::WantOfMemory) => bail!("out of memory"),
        Ok(array) => {
            let is_same = array.shape() == shape && array.items() == copy.view();
            let is_made = is_same && array.is_chars() == matches!(copy, Items::Chars(_));
            Ok(if is_made { "array" } else { "another array" })
        }
    }
}

/// What an array of a shape and of so many items is, of numbers and of characters alike, and what the shape alone is.
pub fn shape_text(alloc: Global, shape: &str, count: &str) -> Result<String> {
    let axes = shape
        .strip_prefix("(")
        .and_then(|rest| rest.strip_suffix(")"));
    let shape = axes_of(alloc, axes.context("no shape")?)?;
    let count: u32 = count.parse()?;
    let numbers: Vec<i64> = (0..i64::from(count)).collect(alloc)?;
    let numbers = Items::Numbers(NumberList::from(List::from(numbers)));
    let numbers = made_text(alloc, &shape, numbers)?;
    let blanks = Line::from(vec![in alloc; Glyph::BLANK; count as usize]?);
    let blanks = made_text(alloc, &shape, Items::Chars(blanks))?;
    let both = if numbers == blanks { numbers } else { "unlike" };
    let alone = match shape_fault(&shape) {
        None => "fits",
        Some(ShapeFault::Rank) => "rank",
        Some(ShapeFault::Size) => "size",
    };
    Ok(format!(in alloc; "{both} ¦ {alone}")?)
}

/// Whether an array is the same as another. Its copy is the same, and its text the one that it was read from.
pub fn equality_text(alloc: Global, one: &str, other: &str) -> Result<String> {
    let array = array_of(alloc, one)?;
    let copy = array.copy(alloc)?;
    let text = array_text(alloc, &copy)?;
    ensure!(copy == array && text.as_str() == one, "the copy is another");
    let is_same = array == array_of(alloc, other)?;
    Ok(String::from_str(alloc, if is_same { "same" } else { "other" })?)
}

fn item_at(array: &Array, place: usize) -> Result<Item> {
    ensure!(place < array.items().len(), "no such place: {place}");
    Ok(array.item(place))
}

/// The scalar of a number. It is equal to its copy, and the number is its item.
pub fn scalar_text(alloc: Global, field: &str) -> Result<String> {
    let number = number_of(alloc, field)?;
    let scalar = Array::scalar(alloc, number)?;
    ensure!(scalar.copy(alloc)? == scalar, "the copy is another");
    let item = item_at(&scalar, 0)?;
    ensure!(item == Item::Number(number), "the item is another");
    array_text(alloc, &scalar)
}

/// The item of an array at a place.
pub fn item_text(alloc: Global, array: &str, place: &str) -> Result<String> {
    let mut text = String::new(alloc);
    match item_at(&array_of(alloc, array)?, place.parse()?)? {
        Item::Number(number) => push_numbers(&mut text, &[number])?,
        Item::Char(glyph) => push_quoted(alloc, &mut text, &[glyph])?,
    }
    Ok(text)
}

/// The lines that are shown of an array, with a line feed behind each.
pub fn lines_text(alloc: Global, array: &str) -> Result<String> {
    let mut text = String::new(alloc);
    let lines = lines_of(alloc, &array_of(alloc, array)?)?;
    push_lines(alloc, &mut text, &lines, "\n")?;
    Ok(text)
}

/// What `⍕` makes of an array.
pub fn format_text(alloc: Global, array: &str) -> Result<String> {
    outcome_text(alloc, format(alloc, &array_of(alloc, array)?))
}
