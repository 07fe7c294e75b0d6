use crate::case::{Case, Wanted, sound_case};
use anyhow::{Context, Result};
use std::{fs, io};

/// A case in four files, `NAME.words`, `NAME.bundle`, `NAME.status` and `NAME.expect`.
#[derive(Debug, Drop)]
pub struct StoredCase {
    words: String,
    bundle: Vec<u8>,
    status: String,
    expect: Vec<u8>,
}

fn path_of(rt: &HostRuntime, name: &str, part: &str) -> io::Result<String> {
    Ok(format!(in rt.alloc(); "{name}.{part}")?)
}

fn text_in(rt: &HostRuntime, name: &str, part: &str) -> Result<String> {
    let path = path_of(rt, name, part)?;
    fs::read_to_string(rt, path.as_str()).context(format_args!("reading {path}"))
}

fn bytes_in(rt: &HostRuntime, name: &str, part: &str) -> Result<Vec<u8>> {
    let path = path_of(rt, name, part)?;
    fs::read(rt, path.as_str()).context(format_args!("reading {path}"))
}

impl StoredCase {
    /// Reads the four files.
    pub fn read(rt: &HostRuntime, name: &str) -> Result<Self> {
        Ok(StoredCase {
            words: text_in(rt, name, "words")?,
            bundle: bytes_in(rt, name, "bundle")?,
            status: text_in(rt, name, "status")?,
            expect: bytes_in(rt, name, "expect")?,
        })
    }

    /// What the program is given.
    pub fn case(&self) -> Case<'_> {
        sound_case(self.words.as_str(), &self.bundle)
    }

    /// How it is to end. The first line of the status is the number, and the second the text on standard error.
    pub fn wanted(&self) -> Result<Wanted<'_>> {
        let (number, told) = self
            .status
            .split_once("\n")
            .context("no line in the status")?;
        Ok(Wanted {
            code: number.parse().context("no number in the status")?,
            told: told.trim_end(),
            written: &self.expect,
        })
    }
}
