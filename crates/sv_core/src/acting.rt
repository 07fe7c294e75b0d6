ghost use Rattle.std.specs.Prelude.{◌≡◌, [], IfOk, OnOk, OnErr, Some, None};
ghost use Rattle.sv_cell_laws.specs.Steps.{TouchesNothing};
ghost use Rattle.sv_core.specs.Core.{MayMake, core_after};
ghost use Rattle.sv_events.specs.Answer.{plain_answer};
ghost use Rattle.sv_events.specs.Row.{act_row};
ghost use Rattle.sv_rules.specs.Legal.{entry_for};
ghost use Rattle.sv_rules.specs.Outcome.{outcome};
ghost use Rattle.sv_rules.specs.Standing.{own_offer, standing};

use crate::Core;
use crate::telling::{ToldAnswer, enter, no_act, told_twice};
use apl_arrays::{List, WantOfMemory};
use sv_events::{Act, Answer, Controlling, Ending, Question};
use sv_rules::Standing;

impl Core {
    // The answer to an act that its party may make, other than a leave, where there is room; its entry is added, with an
    // equal act.
    pub(crate) fn make(&mut self, party: u32, act: &Act) -> Result<Answer, WantOfMemory>
        requires { MayMake self.old party act.now }
        ensures answer { IfOk result (λ answer. plain_answer answer ≡ (outcome self.old.journal party act.now).answer) }
        ensures journal { OnOk result (self.new ≡ core_after self.old party act.now) }
        ensures err { OnErr result (self.new ≡ self.old) }
    {
        if let Some(access) = &act.access() {
            return self.make_access(party, access, act);
        }
        self.make_other(party, act)
    }

    // The answer to an act that is no access; its entry has an equal act.
    fn make_other(&mut self, party: u32, act: &Act) -> Result<Answer, WantOfMemory>
        requires may { MayMake self.old party act.now }
        requires row { (act_row act.now).row.accesses ≡ None }
        ensures answer { IfOk result (λ answer. plain_answer answer ≡ (outcome self.old.journal party act.now).answer) }
        ensures journal { OnOk result (self.new ≡ core_after self.old party act.now) }
        ensures err { OnErr result (self.new ≡ self.old) }
    {
        let entered = act.copy(self.alloc)?;
        self.make_by_row(party, entered)
    }

    // The same, by its row.
    fn make_by_row(&mut self, party: u32, act: Act) -> Result<Answer, WantOfMemory>
        requires may { MayMake self.old party act }
        requires row { (act_row act).row.accesses ≡ None }
        ensures answer { IfOk result (λ answer. plain_answer answer ≡ (outcome self.old.journal party act).answer) }
        ensures journal { OnOk result (self.new ≡ core_after self.old party act) }
        ensures err { OnErr result (self.new ≡ self.old) }
    {
        let row = act.row();
        if let Some(opening) = row.opens {
            self.make_offer(party, opening, act)
        } else if let Some(ending) = row.ends {
            self.make_ending(party, ending, act)
        } else if let Some(set) = row.controls {
            self.make_control(party, set, act)
        } else if let Some(asked) = row.asks {
            self.make_question(party, asked, act)
        } else {
            unreachable!()
        }
    }

    // The answer to an act that ends offers, other than a leave.
    fn make_ending(&mut self, party: u32, ending: Ending, act: Act) -> Result<Answer, WantOfMemory>
        requires may { MayMake self.old party act }
        requires row { (act_row act).row.ends ≡ Some ending }
        ensures answer { IfOk result (λ answer. plain_answer answer ≡ (outcome self.old.journal party act).answer) }
        ensures journal { OnOk result (self.new ≡ core_after self.old party act) }
        ensures err { OnErr result (self.new ≡ self.old) }
    {
        match ending {
            Ending::One(local) => self.make_retraction(party, local, act),
            Ending::All => unreachable!(),
        }
    }

    // Adds the entry of an act that changes no offers and nothing that is kept of them.
    pub(crate) fn enter_quiet(
        &mut self,
        party: u32,
        act: Act,
        answer: Answer,
    ) -> Result<Answer, WantOfMemory>
        requires may { MayMake self.old party act }
        requires answer { plain_answer answer ≡ (outcome self.old.journal party act).answer }
        requires quiet { TouchesNothing self.old.journal (entry_for self.old.journal party act) }
        requires none { (outcome self.old.journal party act).made ≡ [] }
        ensures answer { IfOk result (λ answer. plain_answer answer ≡ (outcome self.old.journal party act).answer) }
        ensures journal { OnOk result (self.new ≡ core_after self.old party act) }
        ensures err { OnErr result (self.new ≡ self.old) }
    {
        let told = match told_twice(self.alloc, answer) {
            Ok(told) => told,
            Err(_) => return no_act(act),
        };
        if self.log.reserve().is_err() {
            drop(told);
            return no_act(act);
        }
        Ok(enter(&mut self.log, party, act, told, List::new(self.alloc)))
    }

    fn make_question(
        &mut self,
        party: u32,
        asked: Question,
        act: Act,
    ) -> Result<Answer, WantOfMemory>
        requires may { MayMake self.old party act }
        requires row { (act_row act).row.asks ≡ Some asked }
        ensures answer { IfOk result (λ answer. plain_answer answer ≡ (outcome self.old.journal party act).answer) }
        ensures journal { OnOk result (self.new ≡ core_after self.old party act) }
        ensures err { OnErr result (self.new ≡ self.old) }
    {
        match self.answer_to(party, &asked) {
            Ok(answer) => self.enter_quiet(party, act, answer),
            Err(_) => no_act(act),
        }
    }

    fn make_control(
        &mut self,
        party: u32,
        set: Controlling,
        act: Act,
    ) -> Result<Answer, WantOfMemory>
        requires may { MayMake self.old party act }
        requires row { (act_row act).row.controls ≡ Some set }
        ensures answer { IfOk result (λ answer. plain_answer answer ≡ (outcome self.old.journal party act).answer) }
        ensures journal { OnOk result (self.new ≡ core_after self.old party act) }
        ensures err { OnErr result (self.new ≡ self.old) }
    {
        match self.own(party, &set.local) {
            None => self.enter_quiet(party, act, Answer::NotShared),
            Some(offer) => self.set_control(party, offer, set, act),
        }
    }

    // A control of a standing offer.
    fn set_control(
        &mut self,
        party: u32,
        offer: Standing,
        set: Controlling,
        act: Act,
    ) -> Result<Answer, WantOfMemory>
        requires may { MayMake self.old party act }
        requires row { (act_row act).row.controls ≡ Some set }
        requires own { own_offer (standing self.old.journal) party set.local ≡ Some offer }
        ensures answer { IfOk result (λ answer. plain_answer answer ≡ (outcome self.old.journal party act).answer) }
        ensures journal { OnOk result (self.new ≡ core_after self.old party act) }
        ensures err { OnErr result (self.new ≡ self.old) }
    {
        let vector = self.in_force_with(set.control, &offer);
        if self.log.reserve().is_err() {
            return no_act(act);
        }
        self.cells.control(offer.place, set.control);
        let told = ToldAnswer {
            answer: Answer::Vector(vector),
            kept: Answer::Vector(vector),
        };
        Ok(enter(&mut self.log, party, act, told, List::new(self.alloc)))
    }
}
