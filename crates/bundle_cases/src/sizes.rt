use anyhow::{Result, bail};
use bundle_text::{Bundle, BundleRefused, read};
use case_tables::{Trial, bytes_of};
use std::alloc::{AllocError, Global};

/// Long texts: the bytes; how much the bundle has.
#[derive(Clone, Copy, Debug)]
pub struct Sizes;

// How many lines all users have, and how many glyphs these lines have.
fn line_sizes(bundle: &Bundle) -> (usize, usize) {
    let mut lines = 0_usize;
    let mut glyphs = 0_usize;
    for user in bundle.users() {
        for line in user.lines.as_slice() {
            lines = lines.saturating_add(1);
            glyphs = glyphs.saturating_add(line.as_slice().len());
        }
    }
    (lines, glyphs)
}

// How many bytes all files have.
fn file_bytes(bundle: &Bundle) -> usize {
    let mut bytes = 0_usize;
    for file in bundle.files() {
        bytes = bytes.saturating_add(file.bytes.as_slice().len());
    }
    bytes
}

fn sizes_text(alloc: Global, bundle: &Bundle) -> Result<String, AllocError> {
    let users = bundle.users().len();
    let (lines, glyphs) = line_sizes(bundle);
    let turns = bundle.order().len();
    let files = bundle.files().len();
    let bytes = file_bytes(bundle);
    let readings = bundle.clock().len();
    format!(in alloc;
        "users {users}, lines {lines}, glyphs {glyphs}, turns {turns}, files {files}, bytes {bytes}, readings {readings}"
    )
}

impl Trial for Sizes {
    fn given(&self) -> usize {
        1
    }

    fn found(&self, alloc: Global, fields: &[&str]) -> Result<String> {
        let [text, ..] = fields else {
            bail!("a text is wanted");
        };
        match read(alloc, &bytes_of(alloc, *text)?) {
            Ok(bundle) => Ok(sizes_text(alloc, &bundle)?),
            Err(BundleRefused::WantOfMemory) => bail!("out of memory"),
            Err(why) => Ok(why.to_string(alloc)?),
        }
    }
}
