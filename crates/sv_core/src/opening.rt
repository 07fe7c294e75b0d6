ghost use Rattle.std.specs.Prelude.{◌≡◌, ◌+◌, ◌<◌, ◌≤◌, [], length, Contains, IfOk, OnOk, OnErr, Some, None};
ghost use Rattle.apl_arrays.specs.Limits.{most_offers};
ghost use Rattle.sv_kept.specs.Cell.{new_cell};
ghost use Rattle.sv_kept.specs.Cells.{KeepsCells, PutsAt};
ghost use Rattle.sv_core.specs.Core.{MayMake, core_after};
ghost use Rattle.sv_events.specs.Answer.{kept, plain_answer};
ghost use Rattle.sv_events.specs.Row.{act_row};
ghost use Rattle.sv_events.specs.declared.row.Ending.TheVariants.{One};
ghost use Rattle.sv_offers.specs.Places.{IsNext};
ghost use Rattle.sv_offers.specs.Table.{after_offer};
ghost use Rattle.sv_rules.specs.Coupling.{open_match};
ghost use Rattle.sv_rules.specs.Entries.{next_place};
ghost use Rattle.sv_rules.specs.Outcome.{outcome};
ghost use Rattle.sv_rules.specs.Questions.{degree_of};
ghost use Rattle.sv_rules.specs.Standing.{offer_count, own_offer, standing};
ghost use Rattle.sv_rules.specs.Story.{handed_in, known};

use crate::Core;
use crate::telling::{ToldAnswer, enter, no_act, told_twice};
use crate::updating::{end_together, join};
use apl_arrays::{List, Name, WantOfMemory};
use std::alloc::Global;
use sv_events::{Act, Answer, Ending, Opening, PairList, copy_value};
use sv_kept::{Cells, Log};
use sv_offers::Offers;
use sv_rules::Standing;

impl Core {
    // The answer to an act that opens an offer.
    pub(crate) fn make_offer(
        &mut self,
        party: u32,
        opening: Opening,
        act: Act,
    ) -> Result<Answer, WantOfMemory>
        requires may { MayMake self.old party act }
        requires row { (act_row act).row.opens ≡ Some opening }
        ensures answer { IfOk result (λ answer. plain_answer answer ≡ (outcome self.old.journal party act).answer) }
        ensures journal { OnOk result (self.new ≡ core_after self.old party act) }
        ensures err { OnErr result (self.new ≡ self.old) }
    {
        match self.own(party, &opening.local) {
            Some(offer) => {
                let degree = self.degree_of(&offer);
                self.enter_quiet(party, act, Answer::Degree(degree))
            }
            None => self.make_new_offer(party, opening, act),
        }
    }

    // An offer of a name that its party has not offered.
    fn make_new_offer(
        &mut self,
        party: u32,
        opening: Opening,
        act: Act,
    ) -> Result<Answer, WantOfMemory>
        requires may { MayMake self.old party act }
        requires row { (act_row act).row.opens ≡ Some opening }
        requires fresh { own_offer (standing self.old.journal) party opening.local ≡ None }
        ensures answer { IfOk result (λ answer. plain_answer answer ≡ (outcome self.old.journal party act).answer) }
        ensures journal { OnOk result (self.new ≡ core_after self.old party act) }
        ensures err { OnErr result (self.new ≡ self.old) }
    {
        if self.has_most_offers(party) {
            return self.enter_quiet(party, act, Answer::OfferLimit);
        }
        let new = Standing {
            place: self.log.next_place(),
            party,
            to: opening.to,
            local: opening.local,
            surrogate: opening.surrogate,
        };
        self.open(&new, act)
    }

    // Opens an offer at the next place.
    fn open(&mut self, new: &Standing, act: Act) -> Result<Answer, WantOfMemory>
        requires may { MayMake self.old new.now.party act }
        requires row { (act_row act).row.opens ≡ Some (record { to = new.now.to; local = new.now.local; surrogate = new.now.surrogate }) }
        requires place { new.now.place ≡ next_place self.old.journal }
        requires fresh { own_offer (standing self.old.journal) new.now.party new.now.local ≡ None }
        requires few { offer_count (standing self.old.journal) new.now.party < most_offers }
        ensures answer { IfOk result (λ answer. plain_answer answer ≡ (outcome self.old.journal new.now.party act).answer) }
        ensures journal { OnOk result (self.new ≡ core_after self.old new.now.party act) }
        ensures err { OnErr result (self.new ≡ self.old) }
    {
        let mut made = List::new(self.alloc);
        let added = add_offer(
            self.alloc,
            &mut self.log,
            &mut self.offers,
            &mut self.cells,
            new,
            &act,
            &mut made,
        );
        match added {
            Err(_) => {
                drop(made);
                no_act(act)
            }
            Ok(other) => {
                let degree = join(&mut self.cells, new, &other, &mut made);
                let told = ToldAnswer {
                    answer: Answer::Degree(degree),
                    kept: Answer::Degree(degree),
                };
                Ok(enter(&mut self.log, new.party, act, told, made))
            }
        }
    }

    // The answer to an act that takes an offer back.
    pub(crate) fn make_retraction(
        &mut self,
        party: u32,
        local: Name,
        act: Act,
    ) -> Result<Answer, WantOfMemory>
        requires may { MayMake self.old party act }
        requires row { (act_row act).row.ends ≡ Some (One local) }
        ensures answer { IfOk result (λ answer. plain_answer answer ≡ (outcome self.old.journal party act).answer) }
        ensures journal { OnOk result (self.new ≡ core_after self.old party act) }
        ensures err { OnErr result (self.new ≡ self.old) }
    {
        match self.own(party, &local) {
            None => self.enter_quiet(party, act, Answer::NotShared),
            Some(offer) => self.take_back(party, local, offer, act),
        }
    }

    // Takes a standing offer back.
    fn take_back(
        &mut self,
        party: u32,
        local: Name,
        offer: Standing,
        act: Act,
    ) -> Result<Answer, WantOfMemory>
        requires may { MayMake self.old party act }
        requires row { (act_row act).row.ends ≡ Some (One local) }
        requires own { own_offer (standing self.old.journal) party local ≡ Some offer }
        ensures answer { IfOk result (λ answer. plain_answer answer ≡ (outcome self.old.journal party act).answer) }
        ensures journal { OnOk result (self.new ≡ core_after self.old party act) }
        ensures err { OnErr result (self.new ≡ self.old) }
    {
        let told = match self.kept(&offer) {
            Ok(told) => told,
            Err(_) => return no_act(act),
        };
        let mut made = List::new(self.alloc);
        if room_for_pair(&mut self.log, &mut made).is_err() {
            drop(told);
            drop(made);
            return no_act(act);
        }
        let at = self.log.next_place();
        end_together(
            &mut self.offers,
            &mut self.cells,
            at,
            party,
            Ending::One(local),
            &mut made,
        );
        Ok(enter(&mut self.log, party, act, told, made))
    }

    // The answer to the party that takes a standing offer back, twice.
    fn kept(&self, offer: &Standing) -> Result<ToldAnswer, WantOfMemory>
        requires { Contains (standing self.now.journal) offer.now }
        ensures answer { IfOk result (λ told. plain_answer told.answer ≡ kept (degree_of self.now.journal (Some offer.now)) (known self.now.journal offer.now)) }
        ensures kept { IfOk result (λ told. plain_answer told.kept ≡ kept (degree_of self.now.journal (Some offer.now)) (known self.now.journal offer.now)) }
    {
        let value = copy_value(self.alloc, self.known(offer))?;
        let degree = self.degree_of(offer);
        told_twice(self.alloc, Answer::Kept { degree, value })
    }
}

// Room for an entry and for the pair that it makes. It takes memory; after `WantOfMemory` there is no less room than before.
fn room_for_pair(log: &mut Log, made: &mut PairList) -> Result<(), WantOfMemory>
    ensures none { made.new.items ≡ made.old.items }
    ensures users { log.new.users ≡ log.old.users }
    ensures journal { log.new.journal ≡ log.old.journal }
    ensures kept { log.old.room ≤ log.new.room }
    ensures room { OnOk result (length log.old.users + 1 ≤ log.new.room) }
    ensures pair { OnOk result (1 ≤ made.new.room) }
{
    made.reserve(1)?;
    log.reserve()
}

// Room for the entry, the pair and the cell of a new offer, and the value that it is handed; then it stands, is coupled in the
// table with its match, which is answered, and has its cell. It takes memory; after `WantOfMemory` table and cells are as
// before.
fn add_offer(
    alloc: Global,
    log: &mut Log,
    offers: &mut Offers,
    cells: &mut Cells,
    new: &Standing,
    act: &Act,
    made: &mut PairList,
) -> Result<Option<Standing>, WantOfMemory>
    requires none { made.old.items ≡ [] }
    requires next { IsNext offers.old new.now.place }
    ensures none { made.new.items ≡ [] }
    ensures users { log.new.users ≡ log.old.users }
    ensures journal { log.new.journal ≡ log.old.journal }
    ensures entries { log.old.room ≤ log.new.room }
    ensures room { OnOk result (length log.old.users + 1 ≤ log.new.room) }
    ensures pair { OnOk result (1 ≤ made.new.room) }
    ensures table { OnOk result (offers.new ≡ after_offer offers.old new.now) }
    ensures other { IfOk result (λ other. other ≡ open_match offers.old.offers offers.old.coupled new.now) }
    ensures cell { OnOk result (PutsAt cells.old cells.new new.now.place (Some (new_cell (handed_in act.now)))) }
    ensures err { OnErr result (offers.new ≡ offers.old) }
    ensures kept { OnErr result (KeepsCells cells.old cells.new) }
{
    room_for_pair(log, made)?;
    cells.reserve()?;
    let value = copy_value(alloc, act.hands_in())?;
    match offers.add(new) {
        Err(_) => {
            drop(value);
            Err(WantOfMemory)
        }
        Ok(other) => {
            cells.open(new.place, value);
            Ok(other)
        }
    }
}
