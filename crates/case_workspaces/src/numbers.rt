use anyhow::{Context, Result};

/// The number that a word says. An error where it is none, or one past the greatest `u32`.
pub fn natural_of(word: &str) -> Result<u32> {
    word.parse().context("no number")
}
