ghost use Rattle.std.specs.Prelude.{◌≡◌, not, is_some, IfOk};
ghost use Rattle.std.specs.List.{list_any, list_all};
ghost use Rattle.std.specs.Option.{option_copied};
ghost use Rattle.sv_events.specs.Entry.{plain_entry};
ghost use Rattle.sv_rules.specs.Entries.{has_left};
ghost use Rattle.sv_rules.specs.Journal.{journal_of};
ghost use Rattle.sv_rules.specs.Refused.{act_held, awaited, refused, still_refused, waits};
ghost use Rattle.sv_rules.specs.Work.{is_halted, is_idle, is_stuck, rests};

use crate::holding::hold_on;
use crate::{couplings_of, standing_offers, work_of};
use apl_arrays::WantOfMemory;
use aux_parties::{AUXILIARIES, AuxiliaryRow};
use std::alloc::Global;
use sv_events::{Act, Entry, Hold, Work};
use sv_rules::{has_left, is_held, own_offer};

/// What refuses an act of a party, if anything does. It takes memory for the offers and the couplings of each entry in
/// turn.
pub fn refused(
    alloc: Global,
    entries: &[Entry],
    party: u32,
    act: &Act,
) -> Result<Option<Hold>, WantOfMemory>
    ensures { IfOk result (λ hold. hold ≡ refused (journal_of entries.now) party act.now) }
{
    match act.row().accesses {
        None => Ok(None),
        Some(access) => {
            let offers = standing_offers(alloc, entries)?;
            let coupled = couplings_of(alloc, entries)?;
            match own_offer(&offers, party, &access.local) {
                None => Ok(None),
                Some(offer) => hold_on(alloc, entries, &offers, &coupled, &offer, access.kind),
            }
        }
    }
}

// The act of an entry that is held.
fn act_held(entry: &Entry) -> Option<&Act>
    ensures { option_copied result ≡ act_held (plain_entry entry.now) }
{
    if is_held(entry.answer.row().kind) {
        Some(&entry.act)
    } else {
        None
    }
}

/// The act that a party waits for: that of its last entry, where this is held.
pub fn awaited(entries: &[Entry], party: u32) -> Option<&Act>
    ensures { option_copied result ≡ awaited (journal_of entries.now) party }
{
    let mut left = entries.len();
    while left > 0 {
        let entry = &entries[left - 1];
        if entry.party == party {
            return act_held(entry);
        }
        left -= 1;
    }
    None
}

/// Whether the party waits.
pub fn waits(entries: &[Entry], party: u32) -> bool
    ensures { result ≡ waits (journal_of entries.now) party }
{
    awaited(entries, party).is_some()
}

// What refuses, now, the act that a party waits for.
fn still_refused(alloc: Global, entries: &[Entry], party: u32) -> Result<Option<Hold>, WantOfMemory>
    ensures { IfOk result (λ hold. hold ≡ still_refused (journal_of entries.now) party) }
{
    match awaited(entries, party) {
        None => Ok(None),
        Some(act) => refused(alloc, entries, party, act),
    }
}

// Whether the user has left, or waits and is refused now.
fn is_halted(alloc: Global, entries: &[Entry], user: u32) -> Result<bool, WantOfMemory>
    ensures { IfOk result (λ halted. halted ≡ is_halted (journal_of entries.now) user) }
{
    let hold = still_refused(alloc, entries, user)?;
    Ok(has_left(entries, user) || hold.is_some())
}

// Whether some user has not left.
fn some_stays(users: &[u32], entries: &[Entry]) -> bool
    ensures { result ≡ list_any (λ user. not (has_left (journal_of entries.now) user)) users.now }
{
    users.iter().any(|user| !has_left(entries, *user))
}

// Whether all users have left, or wait and are refused now.
fn all_halt(alloc: Global, users: &[u32], entries: &[Entry]) -> Result<bool, WantOfMemory>
    ensures { IfOk result (λ halt. halt ≡ list_all (is_halted (journal_of entries.now)) users.now) }
{
    for user in users {
        if !is_halted(alloc, entries, *user)? {
            return Ok(false);
        }
    }
    Ok(true)
}

// Whether there is no work.
fn is_idle(work: Work) -> bool
    ensures { result ≡ is_idle work }
{
    matches!(work, Work::Idle)
}

// Whether the party of a row has no work.
fn rests(alloc: Global, entries: &[Entry], row: &AuxiliaryRow) -> Result<bool, WantOfMemory>
    ensures { IfOk result (λ rest. rest ≡ rests (journal_of entries.now) row.now) }
{
    let work = work_of(alloc, entries, row.party)?;
    Ok(is_idle(work))
}

// Whether the parties of these rows have no work.
fn all_rest(alloc: Global, rows: &[AuxiliaryRow], entries: &[Entry]) -> Result<bool, WantOfMemory>
    ensures { IfOk result (λ rest. rest ≡ list_all (rests (journal_of entries.now)) rows.now) }
{
    for row in rows {
        if !rests(alloc, entries, row)? {
            return Ok(false);
        }
    }
    Ok(true)
}

/// Whether nobody can go on: whoever is still there waits for an act that is refused now, somebody is there, and no
/// auxiliary has anything to do.
/// It takes memory for the offers and the couplings of each entry in turn.
pub fn is_stuck(alloc: Global, users: &[u32], entries: &[Entry]) -> Result<bool, WantOfMemory>
    ensures { IfOk result (λ stuck. stuck ≡ is_stuck users.now (journal_of entries.now)) }
{
    let halt = all_halt(alloc, users, entries)?;
    let rest = all_rest(alloc, &AUXILIARIES, entries)?;
    Ok(some_stays(users, entries) && halt && rest)
}
