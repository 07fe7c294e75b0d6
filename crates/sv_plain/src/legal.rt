ghost use Rattle.std.specs.Prelude.{◌≡◌, ◌↔◌, ◌||◌, Some, not, IsTrue, IsSome, IfOk};
ghost use Rattle.std.specs.Option.{option_copied};
ghost use Rattle.sv_events.specs.Answer.{plain_answer};
ghost use Rattle.sv_events.specs.Entry.{plain_entry};
ghost use Rattle.sv_events.specs.Row.{act_row};
ghost use Rattle.sv_events.specs.Work.{lone_act};
ghost use Rattle.sv_plain.specs.SetOf.{IsSetOf};
ghost use Rattle.sv_rules.specs.Entries.{has_left, is_abandoned, is_full, is_leave, kind_of};
ghost use Rattle.sv_rules.specs.Journal.{journal_of};
ghost use Rattle.sv_rules.specs.Legal.{act_due, act_for, is_user, may_do, IsStuckIf, MayFollow, IsLegal};
ghost use Rattle.sv_rules.specs.Outcome.{outcome};
ghost use Rattle.aux_parties.specs.Auxiliaries.{is_auxiliary};

use crate::waiting::awaited;
use crate::{is_full, is_stuck, outcome_of, work_of};
use apl_arrays::{Name, WantOfMemory};
use aux_parties::is_auxiliary;
use std::alloc::Global;
use sv_events::{Act, Answer, Entry, PairList, Work, act_of};
use sv_rules::{has_left, is_abandoned, is_leave};

fn is_user(users: &[u32], party: u32) -> bool
    ensures { result ≡ is_user users.now party }
{
    users.contains(&party)
}

fn same_act(one: &Act, other: &Act) -> bool
    ensures { IsTrue result ↔ (one.now ≡ other.now) }
{
    one == other
}

fn same_answer(one: &Answer, other: &Answer) -> bool
    ensures { IsTrue result ↔ (plain_answer one.now ≡ plain_answer other.now) }
{
    one == other
}

fn same_pairs(one: &PairList, other: &PairList) -> bool
    ensures { IsTrue result ↔ (one.now.items ≡ other.now.items) }
{
    one == other
}

// Whether the party is a user or an auxiliary and has not left, and the entries leave room for the act.
fn may_act(users: &[u32], before: &[Entry], entry: &Entry) -> bool
    ensures { IsTrue result ↔ (IsTrue (is_user users.now entry.now.party || is_auxiliary entry.now.party) × IsTrue (not (has_left (journal_of before.now) entry.now.party))
        × IsTrue (is_leave entry.now.act || not (is_full (journal_of before.now)))) }
{
    (is_user(users, entry.party) || is_auxiliary(entry.party))
        && !has_left(before, entry.party)
        && (is_leave(&entry.act) || !is_full(before))
}

// Whether the act is a set of a local name.
fn is_set_of(local: &Name, act: &Act) -> bool
    ensures { IsTrue result ↔ IsSetOf local.now act.now }
{
    match act {
        Act::Set(name, _) => name == local,
        _ => false,
    }
}

// Whether the act is that of some work, whose entry has this place.
fn is_of_work(work: Work, place: u64, act: &Act) -> bool
    ensures { IsTrue result ↔ (act_for work place (act_row act.now).hands_in ≡ Some act.now) }
{
    match work {
        Work::Idle => false,
        Work::Reply(local) => is_set_of(&local, act),
        other => is_lone_act(other, place, act),
    }
}

// Whether the act is that of some work that is no reply.
fn is_lone_act(work: Work, place: u64, act: &Act) -> bool
    requires some { IsSome (lone_act work place) }
    ensures { IsTrue result ↔ (lone_act work place ≡ Some act.now) }
{
    let due = act_of(work, place, None);
    let same = same_act(&due, act);
    drop(due);
    same
}

// Whether a user that waits for an act, or for none, may do this one.
fn is_may_do(waited: Option<&Act>, act: &Act) -> bool
    ensures { IsTrue result ↔ (may_do (option_copied waited.entry) act.now ≡ act.now) }
{
    match waited {
        None => true,
        Some(waited) => is_leave(act) || same_act(waited, act),
    }
}

// Whether the act is one that its party may make: an auxiliary that of its work.
fn is_due(alloc: Global, before: &[Entry], party: u32, act: &Act) -> Result<bool, WantOfMemory>
    ensures { IfOk result (λ due. IsTrue due ↔ (act_due (is_auxiliary party) (journal_of before.now) party act.now ≡ Some act.now)) }
{
    if is_auxiliary(party) {
        let work = work_of(alloc, before, party)?;
        Ok(is_of_work(work, before.len() as u64 + 1, act))
    } else {
        Ok(is_may_do(awaited(before, party), act))
    }
}

// Whether a wait is given up only where nobody can go on.
fn may_give_up(
    alloc: Global,
    users: &[u32],
    before: &[Entry],
    answer: &Answer,
) -> Result<bool, WantOfMemory>
    ensures { IfOk result (λ may. IsTrue may ↔ IsStuckIf (is_abandoned (kind_of (plain_answer answer.now))) users.now (journal_of before.now)) }
{
    if is_abandoned(answer.row().kind) {
        is_stuck(alloc, users, before)
    } else {
        Ok(true)
    }
}

// Whether the entry has the answer and the pairs of its act.
fn has_outcome(alloc: Global, before: &[Entry], entry: &Entry) -> Result<bool, WantOfMemory>
    ensures { IfOk result (λ has. IsTrue has ↔ (((plain_entry entry.now).answer ≡ (outcome (journal_of before.now) entry.now.party entry.now.act).answer)
        × ((plain_entry entry.now).made ≡ (outcome (journal_of before.now) entry.now.party entry.now.act).made))) }
{
    let outcome = outcome_of(alloc, before, entry.party, &entry.act)?;
    Ok(same_answer(&entry.answer, &outcome.answer) && same_pairs(&entry.made, &outcome.made))
}

fn may_follow(
    alloc: Global,
    users: &[u32],
    before: &[Entry],
    entry: &Entry,
) -> Result<bool, WantOfMemory>
    ensures { IfOk result (λ may. IsTrue may ↔ MayFollow users.now (journal_of before.now) (plain_entry entry.now)) }
{
    let may = may_act(users, before, entry);
    let due = is_due(alloc, before, entry.party, &entry.act)?;
    let outcome = has_outcome(alloc, before, entry)?;
    let given_up = may_give_up(alloc, users, before, &entry.answer)?;
    Ok(may && due && outcome && given_up)
}

/// Whether the entries are a legal journal of these users: whether each may follow those before it. Each entry is
/// compared with what becomes of its act by the rules, going over the entries before it anew, so this is slow. It takes
/// memory for what becomes of one act at a time.
pub fn is_legal(alloc: Global, users: &[u32], entries: &[Entry]) -> Result<bool, WantOfMemory>
    ensures { IfOk result (λ legal. IsTrue legal ↔ IsLegal users.now (journal_of entries.now)) }
{
    for (i, entry) in entries.iter().enumerate() {
        if !may_follow(alloc, users, &entries[..i], entry)? {
            return Ok(false);
        }
    }
    Ok(true)
}
