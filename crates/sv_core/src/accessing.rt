ghost use Rattle.std.specs.Prelude.{◌≡◌, ◌+◌, ◌≤◌, length, IfOk, IfSome, IsSome, OnOk, OnErr, Some, None};
ghost use Rattle.std.specs.Option.{option_copied};
ghost use Rattle.apl_arrays.specs.Array.{PlainArray};
ghost use Rattle.sv_cell_laws.specs.Steps.{set_access, use_access};
ghost use Rattle.sv_kept.specs.Cells.{KeepsCells};
ghost use Rattle.sv_core.specs.Core.{IsFound, MayMake, core_after};
ghost use Rattle.sv_core.specs.Updating.{AfterAccess, IsReady, value_at};
ghost use Rattle.sv_events.specs.Answer.{plain_answer};
ghost use Rattle.sv_events.specs.Row.{act_row};
ghost use Rattle.sv_rules.specs.Coupling.{coupling_now};
ghost use Rattle.sv_rules.specs.Outcome.{outcome, value_answer};
ghost use Rattle.sv_rules.specs.Refused.{hold_on};
ghost use Rattle.sv_rules.specs.Standing.{own_offer, standing};

use crate::Core;
use crate::updating::{note_set, note_use};
use apl_arrays::{Array, List, WantOfMemory};
use std::alloc::Global;
use sv_access::Kind;
use sv_events::{Accessing, Act, Answer, Entry, Hold};
use sv_kept::{Cells, Log};
use sv_rules::{Coupling, Standing, refusal_answer};

impl Core {
    // The answer to an access.
    pub(crate) fn make_access(
        &mut self,
        party: u32,
        access: &Accessing,
        act: &Act,
    ) -> Result<Answer, WantOfMemory>
        requires may { MayMake self.old party act.now }
        requires row { (act_row act.now).row.accesses ≡ Some access.now }
        ensures answer { IfOk result (λ answer. plain_answer answer ≡ (outcome self.old.journal party act.now).answer) }
        ensures journal { OnOk result (self.new ≡ core_after self.old party act.now) }
        ensures err { OnErr result (self.new ≡ self.old) }
    {
        if let Some(offer) = &self.own(party, &access.local) {
            return self.make_own_access(party, offer, &self.coupling_on(offer), access, act);
        }
        self.make_unshared_access(party, access, act)
    }

    // An access on a name that its party has not offered.
    fn make_unshared_access(
        &mut self,
        party: u32,
        access: &Accessing,
        act: &Act,
    ) -> Result<Answer, WantOfMemory>
        requires may { MayMake self.old party act.now }
        requires row { (act_row act.now).row.accesses ≡ Some access.now }
        requires none { own_offer (standing self.old.journal) party access.now.local ≡ None }
        ensures answer { IfOk result (λ answer. plain_answer answer ≡ (outcome self.old.journal party act.now).answer) }
        ensures journal { OnOk result (self.new ≡ core_after self.old party act.now) }
        ensures err { OnErr result (self.new ≡ self.old) }
    {
        let entered = act.copy(self.alloc)?;
        self.enter_quiet(party, entered, Answer::NotShared)
    }

    // An access on a standing offer, by its coupling.
    fn make_own_access(
        &mut self,
        party: u32,
        offer: &Standing,
        coupling: &Option<Coupling>,
        access: &Accessing,
        act: &Act,
    ) -> Result<Answer, WantOfMemory>
        requires may { MayMake self.old party act.now }
        requires row { (act_row act.now).row.accesses ≡ Some access.now }
        requires own { own_offer (standing self.old.journal) party access.now.local ≡ Some offer.now }
        requires coupled { coupling.now ≡ coupling_now self.old.journal offer.now.place }
        requires found { IfSome coupling.now (IsFound self.old.journal offer.now.place) }
        ensures answer { IfOk result (λ answer. plain_answer answer ≡ (outcome self.old.journal party act.now).answer) }
        ensures journal { OnOk result (self.new ≡ core_after self.old party act.now) }
        ensures err { OnErr result (self.new ≡ self.old) }
    {
        if let Some(hold) = self.hold_on(offer, coupling, access.kind) {
            return self.refuse(party, offer, access, hold, act);
        }
        if let Kind::Use = access.kind {
            return self.grant_use(party, offer, coupling, access, act);
        }
        self.grant_set(party, offer, coupling, access, act)
    }

    // An access that is refused.
    fn refuse(
        &mut self,
        party: u32,
        offer: &Standing,
        access: &Accessing,
        hold: Hold,
        act: &Act,
    ) -> Result<Answer, WantOfMemory>
        requires may { MayMake self.old party act.now }
        requires row { (act_row act.now).row.accesses ≡ Some access.now }
        requires own { own_offer (standing self.old.journal) party access.now.local ≡ Some offer.now }
        requires held { hold_on self.old.journal access.now.kind (Some offer.now) ≡ Some hold }
        ensures answer { IfOk result (λ answer. plain_answer answer ≡ (outcome self.old.journal party act.now).answer) }
        ensures journal { OnOk result (self.new ≡ core_after self.old party act.now) }
        ensures err { OnErr result (self.new ≡ self.old) }
    {
        let entered = act.copy(self.alloc)?;
        let answer = refusal_answer(self.waits(party), hold);
        self.enter_quiet(party, entered, answer)
    }

    // A set that is not refused.
    fn grant_set(
        &mut self,
        party: u32,
        offer: &Standing,
        coupling: &Option<Coupling>,
        access: &Accessing,
        act: &Act,
    ) -> Result<Answer, WantOfMemory>
        requires may { MayMake self.old party act.now }
        requires row { (act_row act.now).row.accesses ≡ Some access.now }
        requires kind { access.now.kind ≡ Kind.Set }
        requires own { own_offer (standing self.old.journal) party access.now.local ≡ Some offer.now }
        requires free { hold_on self.old.journal access.now.kind (Some offer.now) ≡ None }
        requires coupled { coupling.now ≡ coupling_now self.old.journal offer.now.place }
        requires found { IfSome coupling.now (IsFound self.old.journal offer.now.place) }
        ensures answer { IfOk result (λ answer. plain_answer answer ≡ (outcome self.old.journal party act.now).answer) }
        ensures journal { OnOk result (self.new ≡ core_after self.old party act.now) }
        ensures err { OnErr result (self.new ≡ self.old) }
    {
        let Ok(entered) = set_handed(
            self.alloc,
            &mut self.log,
            &mut self.cells,
            offer,
            coupling,
            act,
        ) else {
            return Err(WantOfMemory);
        };
        self.log.push(Entry {
            party,
            act: entered,
            answer: Answer::Granted,
            made: List::new(self.alloc),
        });
        Ok(Answer::Granted)
    }

    // A use that is not refused.
    fn grant_use(
        &mut self,
        party: u32,
        offer: &Standing,
        coupling: &Option<Coupling>,
        access: &Accessing,
        act: &Act,
    ) -> Result<Answer, WantOfMemory>
        requires may { MayMake self.old party act.now }
        requires row { (act_row act.now).row.accesses ≡ Some access.now }
        requires kind { access.now.kind ≡ Kind.Use }
        requires own { own_offer (standing self.old.journal) party access.now.local ≡ Some offer.now }
        requires free { hold_on self.old.journal access.now.kind (Some offer.now) ≡ None }
        requires coupled { coupling.now ≡ coupling_now self.old.journal offer.now.place }
        requires found { IfSome coupling.now (IsFound self.old.journal offer.now.place) }
        ensures answer { IfOk result (λ answer. plain_answer answer ≡ (outcome self.old.journal party act.now).answer) }
        ensures journal { OnOk result (self.new ≡ core_after self.old party act.now) }
        ensures err { OnErr result (self.new ≡ self.old) }
    {
        let given = given_by(self.alloc, self.value_for(offer, coupling))?;
        let Ok(kept) = use_given(
            self.alloc,
            &mut self.log,
            &mut self.cells,
            offer,
            coupling,
            given.value(),
        ) else {
            drop(given);
            return Err(WantOfMemory);
        };
        self.log.push(Entry {
            party,
            act: use_again(act),
            answer: kept,
            made: List::new(self.alloc),
        });
        Ok(given)
    }
}

// Room for the entry, an equal act for it, and the value that the act hands in, set on an offer by its coupling. It takes
// memory; after `WantOfMemory` the cells are as before.
fn set_handed(
    alloc: Global,
    log: &mut Log,
    cells: &mut Cells,
    offer: &Standing,
    coupling: &Option<Coupling>,
    act: &Act,
) -> Result<Act, WantOfMemory>
    requires ready { IsReady cells.old offer.now coupling.now }
    requires sets { IsSome (act_row act.now).row.accesses }
    requires hands { IsSome (act_row act.now).hands_in }
    ensures act { IfOk result (λ entered. entered ≡ act.now) }
    ensures users { log.new.users ≡ log.old.users }
    ensures journal { log.new.journal ≡ log.old.journal }
    ensures kept { log.old.room ≤ log.new.room }
    ensures room { OnOk result (length log.old.users + 1 ≤ log.new.room) }
    ensures set { OnOk result ((value : PlainArray) → (act_row act.now).hands_in ≡ Some value → AfterAccess cells.old cells.new offer.now (set_access value) coupling.now) }
    ensures err { OnErr result (KeepsCells cells.old cells.new) }
{
    match act {
        Act::Set(local, value) => {
            log.reserve()?;
            let entered = value.copy(alloc)?;
            match value.copy(alloc) {
                Ok(set) => {
                    note_set(cells, offer, coupling, set);
                    Ok(Act::Set(*local, entered))
                }
                Err(_) => {
                    drop(entered);
                    Err(WantOfMemory)
                }
            }
        }
        _ => unreachable!(),
    }
}

// An act that is equal to a use.
fn use_again(act: &Act) -> Act
    requires uses { IsSome (act_row act.now).row.accesses }
    requires none { (act_row act.now).hands_in ≡ None }
    ensures { result ≡ act.now }
{
    match act {
        Act::Use(local) => Act::Use(*local),
        _ => unreachable!(),
    }
}

// The answer of a use, by what it gives. It takes memory for the value.
fn given_by(alloc: Global, value: Option<&Array>) -> Result<Answer, WantOfMemory>
    ensures { IfOk result (λ answer. plain_answer answer ≡ value_answer (option_copied value.entry)) }
{
    let Some(value) = value else {
        return Ok(Answer::NoValue);
    };
    Ok(Answer::Value(value.copy(alloc)?))
}

// Room for the entry, the answer of a use for it, and the use of an offer by its coupling. It takes memory; after
// `WantOfMemory` the cells are as before.
fn use_given(
    alloc: Global,
    log: &mut Log,
    cells: &mut Cells,
    offer: &Standing,
    coupling: &Option<Coupling>,
    value: Option<&Array>,
) -> Result<Answer, WantOfMemory>
    requires { IsReady cells.old offer.now coupling.now }
    ensures users { log.new.users ≡ log.old.users }
    ensures journal { log.new.journal ≡ log.old.journal }
    ensures kept { log.old.room ≤ log.new.room }
    ensures room { OnOk result (length log.old.users + 1 ≤ log.new.room) }
    ensures answer { IfOk result (λ kept. plain_answer kept ≡ value_answer (option_copied value.entry)) }
    ensures ok { OnOk result (AfterAccess cells.old cells.new offer.now (use_access (value_at cells.old offer.now coupling.now)) coupling.now) }
    ensures err { OnErr result (KeepsCells cells.old cells.new) }
{
    log.reserve()?;
    let kept = given_by(alloc, value)?;
    if note_use(cells, offer, coupling).is_err() {
        drop(kept);
        return Err(WantOfMemory);
    }
    Ok(kept)
}
