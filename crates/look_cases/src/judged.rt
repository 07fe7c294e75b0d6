ghost use Rattle.std.specs.Prelude.{IfOk};
ghost use Rattle.sv_core.specs.Core.{ArePeople};

use anyhow::{Result, bail};
use case_tables::{Trial, bytes_of};
use printed_text::{PrintedRefused, read};
use run_judging::first_illegal;
use std::alloc::Global;
use sv_events::Entry;

/// Journals of users: the numbers of the users, and an output; and the place of the first entry that may not follow those before
/// it, or `legal`.
#[derive(Clone, Copy, Debug)]
pub struct Judged;

// The users of one to three that a case may have.
fn users_of(field: &str) -> Result<&'static [u32]>
    ensures { IfOk result (λ users. ArePeople users.now) }
{
    match field {
        "none" => Ok(&[]),
        "1001" => Ok(&[1001]),
        "1001 1002" => Ok(&[1001, 1002]),
        "1001 1002 1003" => Ok(&[1001, 1002, 1003]),
        _ => bail!("these users have no case"),
    }
}

// The first of the entries that may not follow.
fn place_in(alloc: Global, users: &str, entries: &[Entry]) -> Result<String> {
    let mut text = String::new(alloc);
    match first_illegal(alloc, users_of(users)?, entries)? {
        None => text.push_str("legal")?,
        Some(place) => write!(text, "{place}")?,
    }
    Ok(text)
}

impl Trial for Judged {
    fn given(&self) -> usize {
        2
    }

    fn found(&self, alloc: Global, fields: &[&str]) -> Result<String> {
        let [users, text, ..] = fields else {
            bail!("users and a text are wanted");
        };
        match read(alloc, None, &bytes_of(alloc, *text)?) {
            Ok(printed) => {
                let place = place_in(alloc, *users, printed.journal());
                drop(printed);
                place
            }
            Err(PrintedRefused::WantOfMemory) => bail!("out of memory"),
            Err(refused) => Ok(refused.to_string(alloc)?),
        }
    }
}
