use crate::case::difference_of;
use crate::files::StoredCase;
use anyhow::Result;
use case_tables::Tally;
use std::sync::Wait;
use std::thread::Threads;
use std::{fs, io};

fn sorted_names(rt: &HostRuntime, folder: &str) -> io::Result<Vec<String>> {
    let mut names = Vec::new(rt.alloc());
    for entry in fs::read_dir(rt, folder)? {
        names.push(String::from_str(rt.alloc(), entry?.file_name())?)?;
    }
    names.sort()?;
    Ok(names)
}

// One line is printed.
fn stored_differs<R: Threads + Wait + Sync>(
    rt: &HostRuntime,
    threads: &R,
    name: &str,
) -> Result<bool> {
    let stored = StoredCase::read(rt, name)?;
    match difference_of(threads, rt.alloc(), &stored.case(), &stored.wanted()?)? {
        None => {
            println!(rt; "{name}: as wanted")?;
            Ok(false)
        }
        Some(text) => {
            println!(rt; "{name}: {text}")?;
            Ok(true)
        }
    }
}

fn each_in<R: Threads + Wait + Sync>(rt: &HostRuntime, threads: &R, folder: &str) -> Result<Tally> {
    let mut tally = Tally::new();
    for file in sorted_names(rt, folder)?.iter() {
        if let Some(name) = file.strip_suffix(".bundle") {
            let path = format!(in rt.alloc(); "{folder}/{name}")?;
            tally.count(stored_differs(rt, threads, path.as_str())?);
        }
    }
    Ok(tally)
}

/// Runs the bundle of each folder, by name. One line is printed for each.
pub fn each_bundle<R: Threads + Wait + Sync>(rt: &HostRuntime, threads: &R) -> Result<Tally> {
    let mut tally = Tally::new();
    for name in sorted_names(rt, ".")?.iter() {
        if fs::metadata(rt, name.as_str())?.is_dir() {
            tally.add(each_in(rt, threads, name.as_str())?);
        }
    }
    Ok(tally)
}
