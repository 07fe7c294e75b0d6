use crate::shown::bundle_text;
use anyhow::{Result, bail};
use bundle_text::{BundleRefused, read};
use case_tables::{Trial, bytes_of};
use std::alloc::Global;

/// Texts: the bytes; the bundle that they are the text of, or the place and the rule at which they are that of none.
#[derive(Clone, Copy, Debug)]
pub struct Texts;

/// What the reader says of bytes.
pub fn verdict(alloc: Global, bytes: &[u8]) -> Result<String> {
    match read(alloc, bytes) {
        Ok(bundle) => bundle_text(alloc, &bundle),
        Err(BundleRefused::WantOfMemory) => bail!("out of memory"),
        Err(why) => Ok(why.to_string(alloc)?),
    }
}

impl Trial for Texts {
    fn given(&self) -> usize {
        1
    }

    fn found(&self, alloc: Global, fields: &[&str]) -> Result<String> {
        let [text, ..] = fields else {
            bail!("a text is wanted");
        };
        verdict(alloc, &bytes_of(alloc, *text)?)
    }
}
