ghost use Rattle.std.specs.Prelude.{◌≡◌, ◌↔◌, ◌||◌, IfOk, IsSome, IsTrue, OnOk, Some, None, not};
ghost use Rattle.aux_parties.specs.Auxiliaries.{is_auxiliary};
ghost use Rattle.sv_core.specs.Core.{ArePeople, core_after};
ghost use Rattle.sv_core.specs.Retry.{core_retried};
ghost use Rattle.sv_events.specs.Entry.{plain_entry};
ghost use Rattle.sv_events.specs.Row.{act_row};
ghost use Rattle.sv_events.specs.Work.{lone_act};
ghost use Rattle.sv_plain.specs.SetOf.{IsSetOf};
ghost use Rattle.sv_rules.specs.Entries.{has_left, is_full, is_leave};
ghost use Rattle.sv_rules.specs.Legal.{IsLegal, act_due, act_for, is_still_held, is_user};
ghost use Rattle.sv_rules.specs.Refused.{awaited, waits};
ghost use Rattle.run_judging.specs.Judged.{MadeIf};

use crate::same::same_act;
use apl_arrays::{Name, WantOfMemory};
use aux_parties::is_auxiliary;
use sv_core::Core;
use sv_events::{Act, Entry, Retry, Work, act_of};
use sv_rules::is_leave;

/// Whether the party is one of these users.
pub(crate) fn is_user(users: &[u32], party: u32) -> bool
    ensures { result ≡ is_user users.now party }
{
    users.contains(&party)
}

// Whether the act is a set of a local name.
fn is_set_of(local: &Name, act: &Act) -> bool
    ensures { IsTrue result ↔ IsSetOf local.now act.now }
{
    match act {
        Act::Set(name, _) => name == local,
        _ => false,
    }
}

// Whether the act is that of some work that is no reply.
fn is_lone_act(work: Work, place: u64, act: &Act) -> bool
    requires some { IsSome (lone_act work place) }
    ensures { IsTrue result ↔ (lone_act work place ≡ Some act.now) }
{
    let due = act_of(work, place, None);
    let same = same_act(&due, act);
    drop(due);
    same
}

// Whether the act is that of some work, whose entry has this place.
fn is_of_work(work: Work, place: u64, act: &Act) -> bool
    ensures { IsTrue result ↔ (act_for work place (act_row act.now).hands_in ≡ Some act.now) }
{
    match work {
        Work::Idle => false,
        Work::Reply(local) => is_set_of(&local, act),
        other => is_lone_act(other, place, act),
    }
}

// Whether the act is one that its party may make, which does not wait: an auxiliary that of its work, a user any.
fn is_due(core: &Core, party: u32, act: &Act) -> bool
    requires { awaited core.now.journal party ≡ None }
    ensures { IsTrue result ↔ (act_due (is_auxiliary party) core.now.journal party act.now ≡ Some act.now) }
{
    if is_auxiliary(party) {
        let place = core.journal().len() as u64 + 1;
        is_of_work(core.work_of(party), place, act)
    } else {
        true
    }
}

// A leave: whether it is a user that leaves.
fn leave(core: &mut Core, users: &[u32], party: u32) -> bool
    requires users { users.now ≡ core.old.users }
    requires present { IsTrue (not (has_left core.old.journal party)) }
    ensures user { result ≡ is_user core.old.users party }
    ensures left { IsTrue result → core.new ≡ core_after core.old party Act.Leave }
{
    if is_user(users, party) {
        core.leave(party);
        true
    } else {
        false
    }
}

// A party that waits tries again: whether it makes its act.
fn retry(core: &mut Core, party: u32) -> Result<bool, WantOfMemory>
    requires { IsTrue (waits core.old.journal party) }
    ensures held { IfOk result (λ made. made ≡ not (is_still_held core.old.users core.old.journal party)) }
    ensures journal { OnOk result (core.new ≡ core_retried core.old party) }
{
    match core.retry(party)? {
        Retry::StillHeld => Ok(false),
        Retry::Now(answer) => {
            drop(answer);
            Ok(true)
        }
    }
}

// An act that is due.
fn step(core: &mut Core, entry: &Entry) -> Result<(), WantOfMemory>
    requires member { IsTrue (is_user core.old.users entry.now.party || is_auxiliary entry.now.party) }
    requires present { IsTrue (not (has_left core.old.journal entry.now.party)) }
    requires goes_on { awaited core.old.journal entry.now.party ≡ None }
    requires due { act_due (is_auxiliary entry.now.party) core.old.journal entry.now.party entry.now.act ≡ Some entry.now.act }
    requires stays { IsTrue (not (is_leave entry.now.act)) }
    requires room { IsTrue (not (is_full core.old.journal)) }
    ensures { OnOk result (core.new ≡ core_after core.old entry.now.party entry.now.act) }
{
    let answer = core.step_with(entry.party, &entry.act)?;
    drop(answer);
    Ok(())
}

// The act of a party that does not wait, where it is due: whether it is.
fn step_if_due(core: &mut Core, entry: &Entry) -> Result<bool, WantOfMemory>
    requires member { IsTrue (is_user core.old.users entry.now.party || is_auxiliary entry.now.party) }
    requires present { IsTrue (not (has_left core.old.journal entry.now.party)) }
    requires goes_on { awaited core.old.journal entry.now.party ≡ None }
    requires stays { IsTrue (not (is_leave entry.now.act)) }
    requires room { IsTrue (not (is_full core.old.journal)) }
    ensures { IfOk result (λ made. MadeIf core.old (plain_entry entry.now) made core.new) }
{
    let due = is_due(core, entry.party, &entry.act);
    if due {
        step(core, entry)?;
        Ok(true)
    } else {
        Ok(false)
    }
}

/// What the party of an entry may do with its act, where it has not left and there is room: whether anything. It takes memory for
/// what the processor keeps.
pub(crate) fn make(core: &mut Core, users: &[u32], entry: &Entry) -> Result<bool, WantOfMemory>
    requires legal { IsLegal core.old.users core.old.journal }
    requires users { users.now ≡ core.old.users }
    requires member { IsTrue (is_user core.old.users entry.now.party || is_auxiliary entry.now.party) }
    requires present { IsTrue (not (has_left core.old.journal entry.now.party)) }
    requires room { IsTrue (is_leave entry.now.act || not (is_full core.old.journal)) }
    ensures { IfOk result (λ made. MadeIf core.old (plain_entry entry.now) made core.new) }
{
    if is_leave(&entry.act) {
        let leaves = leave(core, users, entry.party);
        Ok(leaves)
    } else if core.waits(entry.party) {
        let again = retry(core, entry.party)?;
        Ok(again)
    } else {
        let made = step_if_due(core, entry)?;
        Ok(made)
    }
}
