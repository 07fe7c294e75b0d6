ghost use Rattle.std.specs.Prelude.{◌≡◌, Bool, None, Some, IsTrue, IfOk, IfSome, not, false, true};
ghost use Rattle.apl_arrays.specs.Parties.{is_user_number};
ghost use Rattle.sv_core.specs.Core.{ArePeople};
ghost use Rattle.sv_events.specs.Row.{act_row};
ghost use Rattle.sv_events.specs.declared.work.Work.TheVariants.{Reply};
ghost use Rattle.sv_rules.specs.Entries.{has_left, is_leave};
ghost use Rattle.sv_rules.specs.Legal.{act_for, is_user};
ghost use Rattle.sv_rules.specs.Refused.{awaited};
ghost use Rattle.aux_parties.specs.Auxiliaries.{is_auxiliary};

use crate::equal::is_equal;
use crate::journals::{entries_of, users_of, verdict};
use crate::retries::{still_held_are_told, try_again};
use crate::told::is_told;
use anyhow::{Result, bail};
use apl_arrays::{Array, FIRST_USER, LAST_USER, Name};
use aux_parties::is_auxiliary;
use case_tables::Trial;
use std::alloc::Global;
use sv_core::Core;
use sv_events::{Act, Entry, Retry, Work, act_of};
use sv_rules::is_leave;

/// Journals that the processor makes, an entry after another: `legal`, or the number of the first that it makes
/// otherwise, or not at all. What an auxiliary does is its work, of which it has to be told what the entries say. Before
/// each entry all who wait try again that are still held by the plain rules.
#[derive(Clone, Copy, Debug)]
pub struct Played;

// The act of some work, where its reply is the value that this act hands in.
fn act_due(alloc: Global, work: Work, place: u64, act: &Act) -> Result<Option<Act>>
    ensures due { IfOk result (λ due. IfSome due (λ new. act_for work place (act_row new).hands_in ≡ Some new)) }
    ensures stays { IfOk result (λ due. IfSome due (λ new. IsTrue (not (is_leave new)))) }
{
    match work {
        Work::Idle => Ok(None),
        Work::Reply(name) => reply_due(alloc, name, place, act.hands_in()),
        Work::Retract(_) | Work::Control(_) | Work::Counter { .. } | Work::Use(_) => {
            Ok(Some(act_of(work, place, None)))
        }
    }
}

// The reply to a name's value by this value, if there is one.
fn reply_due(alloc: Global, name: Name, place: u64, reply: Option<&Array>) -> Result<Option<Act>>
    ensures due { IfOk result (λ due. IfSome due (λ new. act_for (Reply name) place (act_row new).hands_in ≡ Some new)) }
    ensures stays { IfOk result (λ due. IfSome due (λ new. IsTrue (not (is_leave new)))) }
{
    match reply {
        None => Ok(None),
        Some(reply) => {
            let reply = reply.copy(alloc)?;
            Ok(Some(act_of(Work::Reply(name), place, Some(reply))))
        }
    }
}

// An auxiliary does its work, where it has some and is told of it; a reply has the value that the entry hands in. Whether
// it is answered as the entry says.
fn work(alloc: Global, core: &mut Core, entry: &Entry) -> Result<bool>
    requires auxiliary { is_auxiliary entry.now.party ≡ true }
    requires present { IsTrue (not (has_left core.old.journal entry.now.party)) }
    requires goes_on { awaited core.old.journal entry.now.party ≡ None }
    ensures { core.new.users ≡ core.old.users }
{
    let place = core.journal().len() as u64 + 1;
    if !is_told(core, entry.party) {
        return Ok(false);
    }
    let due = act_due(alloc, core.work_of(entry.party), place, &entry.act)?;
    match due {
        None => Ok(false),
        Some(act) => Ok(is_equal(core.step(entry.party, act)?, &entry.answer)),
    }
}

// A user does what an entry says, or what it waits for. Whether it is answered as the entry says.
fn act(alloc: Global, core: &mut Core, entry: &Entry) -> Result<bool>
    requires user { IsTrue (is_user core.old.users entry.now.party) }
    requires person { is_auxiliary entry.now.party ≡ false }
    requires present { IsTrue (not (has_left core.old.journal entry.now.party)) }
    ensures { core.new.users ≡ core.old.users }
{
    if is_leave(&entry.act) {
        core.leave(entry.party);
        return Ok(true);
    }
    if core.waits(entry.party) {
        return match try_again(core, entry.party)? {
            Retry::StillHeld => Ok(false),
            Retry::Now(answer) => Ok(is_equal(answer, &entry.answer)),
        };
    }
    let answer = core.step(entry.party, entry.act.copy(alloc)?)?;
    Ok(is_equal(answer, &entry.answer))
}

// Whether the processor makes this entry next and answers as it says, where it tells whoever is still held so before.
fn makes(alloc: Global, core: &mut Core, users: &[u32], entry: &Entry) -> Result<bool>
    requires { core.old.users ≡ users.now }
    ensures { core.new.users ≡ core.old.users }
{
    let before = core.journal().len();
    if !still_held_are_told(alloc, core, users)? || core.has_left(entry.party) {
        return Ok(false);
    }
    let answered = if is_auxiliary(entry.party) {
        !core.waits(entry.party) && work(alloc, core, entry)?
    } else {
        users.contains(&entry.party) && act(alloc, core, entry)?
    };
    let entries = core.journal();
    Ok(answered && entries.len() == before + 1 && entries.last() == Some(entry))
}

// How many of the entries a processor makes, from the first on.
fn made_by(alloc: Global, core: &mut Core, users: &[u32], entries: &[Entry]) -> Result<usize>
    requires { core.old.users ≡ users.now }
{
    for (count, entry) in entries.iter().enumerate() {
        if !makes(alloc, core, users, entry)? {
            return Ok(count);
        }
    }
    Ok(entries.len())
}

// How many of the entries the processor of these users makes, from the first on.
fn made_count(alloc: Global, users: &[u32], entries: &[Entry]) -> Result<usize>
    requires { ArePeople users.now }
{
    let mut core = Core::new(alloc, users)?;
    let made = made_by(alloc, &mut core, users, entries);
    drop(core);
    made
}

// Whether it is the number of a user.
fn is_user_number(number: u32) -> bool
    ensures { result ≡ is_user_number number }
{
    FIRST_USER <= number && number <= LAST_USER
}

// Whether all are.
fn are_people(users: &[u32]) -> bool
    ensures { IsTrue result → ArePeople users.now }
{
    users.iter().all(|user| is_user_number(*user))
}

impl Trial for Played {
    fn given(&self) -> usize {
        2
    }

    fn found(&self, alloc: Global, fields: &[&str]) -> Result<String> {
        let [users, journal, ..] = fields else {
            bail!("users and a journal are wanted");
        };
        let users = users_of(alloc, *users)?;
        let entries = entries_of(alloc, *journal)?;
        if !are_people(&users) {
            bail!("users are 1001 to 1999");
        }
        let made = made_count(alloc, &users, &entries)?;
        verdict(alloc, made, entries.len())
    }
}
