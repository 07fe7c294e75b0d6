use anyhow::{Context, Result};
use apl_arrays::List;
use std::alloc::{AllocError, Global};

/// The number that a word says, with `¯` for a sign.
pub fn number_of(alloc: Global, word: &str) -> Result<i64> {
    match word.strip_prefix("¯") {
        None => word.parse().context(format_args!("no number: {word}")),
        Some(digits) => {
            let signed = format!(in alloc; "-{digits}")?;
            signed.parse().context(format_args!("no number: {word}"))
        }
    }
}

/// The numbers of a text, with blanks between, and `¯` for a sign.
pub fn numbers_of(alloc: Global, text: &str) -> Result<List<i64>> {
    let mut numbers = List::new(alloc);
    for word in text.split_whitespace() {
        numbers.push(number_of(alloc, word)?)?;
    }
    Ok(numbers)
}

fn push_number(text: &mut String, number: i64) -> Result<(), AllocError> {
    if number < 0 {
        text.push('¯')?;
    }
    let digits = number.unsigned_abs();
    write!(text, "{digits}")
}

/// Adds numbers to a text, with blanks between.
pub fn push_numbers(text: &mut String, numbers: &[i64]) -> Result<(), AllocError> {
    for (place, number) in numbers.iter().enumerate() {
        if place > 0 {
            text.push(' ')?;
        }
        push_number(text, *number)?;
    }
    Ok(())
}
