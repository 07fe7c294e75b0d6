use anyhow::{Context, Result, bail};
use aplsv_words::{Words, WordsRefused, words_of};
use case_tables::{Trial, bytes_of};
use std::alloc::{AllocError, Global};
use std::str;

/// Words: each behind \n but the first; what they ask for, or `usage`.
#[derive(Clone, Copy, Debug)]
pub struct Meanings;

/// The words of a field: none, where it is `none`.
pub fn words_in(alloc: Global, lines: &str) -> Result<Vec<String>, AllocError> {
    let mut words = Vec::new(alloc);
    if lines != "none" {
        for line in lines.split('\n') {
            words.push(String::from_str(alloc, line)?)?;
        }
    }
    Ok(words)
}

// A place, behind its name.
fn push_place(text: &mut String, name: &str, place: Option<&str>) -> Result<(), AllocError> {
    match place {
        Some(place) => write!(text, "{name} {place}; "),
        None => Ok(()),
    }
}

// A count, behind its name.
fn push_count(text: &mut String, name: &str, count: Option<u32>) -> Result<(), AllocError> {
    match count {
        Some(count) => write!(text, "{name} {count}; "),
        None => Ok(()),
    }
}

fn shown(alloc: Global, words: Words) -> Result<String, AllocError> {
    let mut text = String::new(alloc);
    if words.replay {
        text.push_str("replay; ")?;
    }
    push_count(&mut text, "workers", words.workers)?;
    push_place(&mut text, "library", words.library)?;
    push_place(&mut text, "text", words.text)?;
    if words.clock {
        text.push_str("clock; ")?;
    }
    push_count(&mut text, "load", words.load)?;
    if words.components {
        text.push_str("components; ")?;
    }
    if words.relay {
        text.push_str("relay; ")?;
    }
    text.push_str("no more")?;
    Ok(text)
}

fn meaning(alloc: Global, words: &[String]) -> Result<String> {
    match words_of(alloc, words) {
        Ok(words) => Ok(shown(alloc, words)?),
        Err(WordsRefused::Usage) => Ok(String::from_str(alloc, "usage")?),
        Err(WordsRefused::WantOfMemory) => bail!("out of memory"),
    }
}

impl Trial for Meanings {
    fn given(&self) -> usize {
        1
    }

    fn found(&self, alloc: Global, fields: &[&str]) -> Result<String> {
        let field = *fields.first().context("words are wanted")?;
        let bytes = bytes_of(alloc, field)?;
        let words = words_in(alloc, str::from_utf8(&bytes)?)?;
        meaning(alloc, &words)
    }
}
