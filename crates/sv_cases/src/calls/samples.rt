use anyhow::{Context, Result};
use apl_arrays::{Array, Glyph, List, Name};
use std::alloc::Global;
use sv_events::{Pair, PairList};

/// The name of one letter, by its code.
pub fn letter(code: u8) -> Result<Name> {
    let glyph = Glyph::of_code(code).context("no glyph")?;
    Name::of(&[glyph]).context("no letter")
}

/// The scalar of a number, if there is one.
pub fn number(value: Option<i64>) -> Option<Array> {
    match value {
        None => None,
        Some(number) => Some(Array::of_number(number)),
    }
}

/// Pairs of these places.
pub fn pairs(alloc: Global, places: &[(u64, u64)]) -> Result<PairList> {
    let mut list = List::new(alloc);
    for (a, b) in places {
        list.push(Pair { a: *a, b: *b })?;
    }
    Ok(list)
}

/// Whether a value equals another. It is let go.
pub fn is_equal<T: PartialEq + Drop>(value: T, wanted: &T) -> bool {
    let is_so = value == *wanted;
    drop(value);
    is_so
}
