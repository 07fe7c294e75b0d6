use anyhow::{Result, bail};
use bundle_text::{BundleRefused, BundleRule, read};
use case_tables::{Trial, bytes_of};
use refusal_lines::malformed_lines;
use std::alloc::Global;

/// Texts that are of no bundle: the bytes; the lines that say why.
#[derive(Clone, Copy, Debug)]
pub struct Lines;

// Where bytes break a rule, and which, if they are the text of no bundle.
fn refusal(alloc: Global, bytes: &[u8]) -> Result<Option<(u64, BundleRule)>> {
    match read(alloc, bytes) {
        Ok(bundle) => {
            drop(bundle);
            Ok(None)
        }
        Err(BundleRefused::Malformed { offset, rule }) => Ok(Some((offset, rule))),
        Err(BundleRefused::WantOfMemory) => bail!("out of memory"),
    }
}

impl Trial for Lines {
    fn given(&self) -> usize {
        1
    }

    fn found(&self, alloc: Global, fields: &[&str]) -> Result<String> {
        let [text, ..] = fields else {
            bail!("a text is wanted");
        };
        let bytes = bytes_of(alloc, *text)?;
        match refusal(alloc, &bytes)? {
            None => Ok(String::from_str(alloc, "a bundle")?),
            Some((offset, rule)) => Ok(malformed_lines(alloc, &bytes, offset, rule)?),
        }
    }
}
