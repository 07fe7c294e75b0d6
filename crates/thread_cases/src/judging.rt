use crate::counts::Counts;
use crate::dawdling::Dawdling;
use crate::drawing::{BEHIND, drawn_users};
use crate::lots::Lots;
use crate::runs::{replayed, threaded};
use anyhow::{Result, bail};
use aplsv_check::{Verdict, check};
use bundle_text::{Bundle, BundleRefused};
use printed_text::PrintedRefused;
use std::alloc::Global;
use std::sync::Wait;
use std::thread::Threads;

/// What came of a bundle on threads: whether its output is that of no run, whether it is another one than that of its replay, and
/// what its entries came to.
#[derive(Clone, Copy, Debug)]
pub struct Judged {
    pub differs: bool,
    pub is_other: bool,
    pub counts: Counts,
}

// What the entries of an output came to.
fn counts_of(alloc: Global, output: &[u8]) -> Result<Counts> {
    let printed = match printed_text::read(alloc, None, output) {
        Ok(printed) => printed,
        Err(PrintedRefused::Departs(offset)) => bail!("no output from byte {offset} on"),
        Err(PrintedRefused::WantOfMemory) => bail!("out of memory"),
    };
    let mut counts = Counts::new();
    for entry in printed.journal() {
        counts.count(entry);
    }
    drop(printed);
    Ok(counts)
}

// The bundle of a text.
fn bundle_of(alloc: Global, text: &str) -> Result<Bundle> {
    match bundle_text::read(alloc, text.as_bytes()) {
        Ok(bundle) => Ok(bundle),
        Err(BundleRefused::Malformed { offset, .. }) => bail!("no bundle from byte {offset} on"),
        Err(BundleRefused::WantOfMemory) => bail!("out of memory"),
    }
}

// Whether an output is that of some run of the bundle of a text, over its own files and readings and empty shelves.
fn is_sound(alloc: Global, text: &str, output: &[u8]) -> Result<bool> {
    let bundle = bundle_of(alloc, text)?;
    let verdict = check(alloc, &bundle, output);
    drop(bundle);
    Ok(verdict? == Verdict::Yes)
}

// The bundle of some users.
fn whole(alloc: Global, users: &str) -> Result<String> {
    Ok(format!(in alloc; "{users}{BEHIND}")?)
}

/// Draws a bundle and how many workers run it, and judges what they write by the checker, which says `Yes` exactly where it is the
/// output of a run of the bundle.
pub fn judge<R: Threads + Wait + Sync>(
    threads: &R,
    alloc: Global,
    seed: u64,
    most_users: u64,
) -> Result<Judged> {
    let mut lots = Lots::of(seed);
    let users = drawn_users(alloc, &mut lots, most_users)?;
    let workers = lots.below(34).saturating_add(1);
    let bundle = whole(alloc, users.as_str())?;
    let output = threaded(
        threads,
        alloc,
        bundle.as_str(),
        workers,
        &Dawdling::of(seed),
    )?;
    let alone = replayed(alloc, bundle.as_str())?;
    Ok(Judged {
        differs: !is_sound(alloc, bundle.as_str(), &output)?,
        is_other: alone.as_slice() != output.as_slice(),
        counts: counts_of(alloc, &output)?,
    })
}
