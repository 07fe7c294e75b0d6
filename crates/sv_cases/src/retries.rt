ghost use Rattle.std.specs.Prelude.{◌≡◌, IsTrue};
ghost use Rattle.sv_rules.specs.Refused.{waits};

use anyhow::Result;
use std::alloc::Global;
use sv_core::Core;
use sv_events::{Entry, Retry};
use sv_plain::{is_stuck, refused};
use sv_rules::is_held;

/// A party that waits tries again.
#[tactic(auto, using(sv_core::proofs::RetryLemmas::users_stay))]
pub fn try_again(core: &mut Core, party: u32) -> Result<Retry>
    requires { IsTrue (waits core.old.journal party) }
    ensures { core.new.users ≡ core.old.users }
{
    Ok(core.retry(party)?)
}

// Whether a user is still held by the plain rules: its last entry is held and would be refused now, and somebody can go on.
fn is_still_held(alloc: Global, users: &[u32], entries: &[Entry], user: u32) -> Result<bool> {
    match entries.iter().rev().find(|entry| entry.party == user) {
        None => Ok(false),
        Some(last) => Ok(
            is_held(last.answer.row().kind)
                && refused(alloc, entries, user, &last.act)?.is_some()
                && !is_stuck(alloc, users, entries)?,
        ),
    }
}

// Whether a retry is told that it is still held. It is let go.
fn waits_on(retry: Retry) -> bool {
    let is_so = matches!(&retry, Retry::StillHeld);
    drop(retry);
    is_so
}

// Whether a user is told that it is still held, where it tries again.
fn is_kept_back(core: &mut Core, user: u32) -> Result<bool>
    ensures { core.new.users ≡ core.old.users }
{
    if !core.waits(user) {
        return Ok(false);
    }
    Ok(waits_on(try_again(core, user)?))
}

/// Whether each user that is still held by the plain rules is told so where it tries again.
pub fn still_held_are_told(alloc: Global, core: &mut Core, users: &[u32]) -> Result<bool>
    ensures { core.new.users ≡ core.old.users }
{
    for user in users {
        if is_still_held(alloc, users, core.journal(), *user)? && !is_kept_back(core, *user)? {
            return Ok(false);
        }
    }
    Ok(true)
}
