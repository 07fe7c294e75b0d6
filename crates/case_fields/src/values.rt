use crate::arrays::chars_of;
use crate::{array_of, array_text, number_of, unescaped};
use anyhow::{Context, Result};
use apl_arrays::{Array, ItemsRef};
use std::alloc::Global;

fn vector_of(alloc: Global, field: &str) -> Result<Array> {
    let items = chars_of(alloc, unescaped(alloc, field)?.as_str())?;
    let length = u32::try_from(items.len()).ok();
    Ok(Array::try_new(
        alloc,
        &[length.context("fewer characters are wanted")?],
        items,
    )?)
}

/// The value that a field says in short: a character vector in quotes, a number, or any array at length.
pub fn value_of(alloc: Global, field: &str) -> Result<Array> {
    if field.starts_with('\'') {
        vector_of(alloc, field)
    } else if field.contains('(') {
        array_of(alloc, field)
    } else {
        Ok(Array::scalar(alloc, number_of(alloc, field)?)?)
    }
}

// Whether the kind and the shape of a value go without saying.
fn is_short(value: &Array) -> bool {
    match (value.items(), value.shape()) {
        (ItemsRef::Chars(_), [_]) | (ItemsRef::Numbers(_), []) => true,
        _ => false,
    }
}

/// The text of a value, in short where it is a character vector or a number.
pub fn value_text(alloc: Global, value: &Array) -> Result<String> {
    let text = array_text(alloc, value)?;
    if !is_short(value) {
        return Ok(text);
    }
    let (_, items) = text.split_once(")").context("no end of a shape")?;
    Ok(String::from_str(alloc, items)?)
}
