use crate::journals::{entries_of, users_of, verdict};
use anyhow::{Result, bail};
use case_tables::Trial;
use std::alloc::Global;
use sv_events::Entry;
use sv_plain::is_legal;

/// Journals that the plain rules judge: `legal`, or the number of the first entry that may not follow those before it.
#[derive(Clone, Copy, Debug)]
pub struct Judged;

// How many of the entries are a legal journal, from the first on.
fn legal_count(alloc: Global, users: &[u32], entries: &[Entry]) -> Result<usize> {
    for left_out in 0..entries.len() {
        let count = entries.len() - left_out;
        if is_legal(alloc, users, &entries[..count])? {
            return Ok(count);
        }
    }
    Ok(0)
}

impl Trial for Judged {
    fn given(&self) -> usize {
        2
    }

    fn found(&self, alloc: Global, fields: &[&str]) -> Result<String> {
        let [users, journal, ..] = fields else {
            bail!("users and a journal are wanted");
        };
        let users = users_of(alloc, *users)?;
        let entries = entries_of(alloc, *journal)?;
        let legal = legal_count(alloc, &users, &entries)?;
        verdict(alloc, legal, entries.len())
    }
}
