use crate::case::{Wanted, sound_case};
use crate::files::StoredCase;
use crate::run::run;
use crate::trials::REPLAY;
use anyhow::Result;
use case_tables::Tally;
use std::alloc::Global;
use std::sync::Wait;
use std::thread::Threads;

const NAME: &str = "examples/plain-path";

// A front of a bundle is malformed, and nothing is written; where at most the last line feed is missing it is the bundle.
fn prefix_differs<R: Threads + Wait + Sync>(
    threads: &R,
    alloc: Global,
    front: &[u8],
    wanted: &Wanted<'_>,
    whole: bool,
) -> Result<bool> {
    let ended = run(threads, alloc, &sound_case(REPLAY, front))?;
    let is_wanted = if whole {
        ended.code == 0 && ended.written.as_slice() == wanted.written
    } else {
        ended.code == 2 && ended.written.is_empty()
    };
    Ok(!is_wanted)
}

/// Runs each front of a bundle. One line is printed for all.
pub fn each_prefix<R: Threads + Wait + Sync>(rt: &HostRuntime, threads: &R) -> Result<Tally> {
    let stored = StoredCase::read(rt, NAME)?;
    let wanted = stored.wanted()?;
    let bundle = stored.case().input;
    let mut tally = Tally::new();
    for count in 0..=bundle.len() {
        let whole = count.saturating_add(1) >= bundle.len();
        tally.count(prefix_differs(threads, rt.alloc(), &bundle[..count], &wanted, whole)?);
    }
    let Tally { cases, differing } = tally;
    println!(rt; "fronts of {NAME}: {cases} cases, of which {differing} differ")?;
    Ok(tally)
}
