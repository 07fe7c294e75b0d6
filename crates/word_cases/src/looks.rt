use crate::meanings::words_in;
use anyhow::{Context, Result, bail};
use aplsv_words::{Look, WordsRefused, look_of};
use case_tables::{Trial, bytes_of};
use std::alloc::{AllocError, Global};
use std::str;

/// Words: each behind \n but the first; the look that they ask for, or `usage`.
#[derive(Clone, Copy, Debug)]
pub struct LooksAsked;

// A place, behind its name.
fn push_place(text: &mut String, name: &str, place: Option<u64>) -> Result<(), AllocError> {
    match place {
        Some(place) => write!(text, "; {name} {place}"),
        None => Ok(()),
    }
}

fn shown(alloc: Global, look: Look) -> Result<String, AllocError> {
    let mut text = String::new(alloc);
    match look {
        Look::Picture { from, to } => {
            text.push_str("picture")?;
            push_place(&mut text, "from", from)?;
            push_place(&mut text, "to", to)?;
        }
        Look::Why(place) => write!(text, "why {place}")?,
    }
    Ok(text)
}

fn look_asked(alloc: Global, words: &[String]) -> Result<String> {
    match look_of(alloc, words) {
        Ok(look) => Ok(shown(alloc, look)?),
        Err(WordsRefused::Usage) => Ok(String::from_str(alloc, "usage")?),
        Err(WordsRefused::WantOfMemory) => bail!("out of memory"),
    }
}

impl Trial for LooksAsked {
    fn given(&self) -> usize {
        1
    }

    fn found(&self, alloc: Global, fields: &[&str]) -> Result<String> {
        let field = *fields.first().context("words are wanted")?;
        let bytes = bytes_of(alloc, field)?;
        let words = words_in(alloc, str::from_utf8(&bytes)?)?;
        look_asked(alloc, &words)
    }
}
