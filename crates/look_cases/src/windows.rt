use anyhow::{Context, Result, bail};
use case_tables::Trial;
use run_picture::window_of;
use std::alloc::Global;

/// Stretches of journals: how many entries there are; the first and the last place, or `-` where it is not named; and which
/// entries are shown, or `no entry`.
#[derive(Clone, Copy, Debug)]
pub struct Windows;

/// The place that a field names, if it names one.
pub fn place_of(field: &str) -> Result<Option<u64>> {
    if field == "-" {
        return Ok(None);
    }
    let place = field.parse().ok().context("no place")?;
    Ok(Some(place))
}

impl Trial for Windows {
    fn given(&self) -> usize {
        3
    }

    fn found(&self, alloc: Global, fields: &[&str]) -> Result<String> {
        let [count, from, to, ..] = fields else {
            bail!("a count and two places are wanted");
        };
        let count: u32 = count.parse().ok().context("no count")?;
        match window_of(u64::from(count), place_of(*from)?, place_of(*to)?) {
            None => Ok(String::from_str(alloc, "no entry")?),
            Some(window) => {
                let first = window.first;
                let shown = window.shown;
                let left = window.left_out;
                Ok(format!(in alloc; "from {first}: {shown}, and {left} left out")?)
            }
        }
    }
}
