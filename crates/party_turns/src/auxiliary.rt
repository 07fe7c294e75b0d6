ghost use Rattle.std.specs.Prelude.{◌≡◌, false, true, IfOk, IsSome, IsTrue, OnOk, OnErr, None};
ghost use Rattle.sv_core.specs.Due.{is_service};
ghost use Rattle.sv_events.specs.Work.{act_of};
ghost use Rattle.sv_events.specs.declared.work.Work.TheVariants as work;
ghost use Rattle.sv_rules.specs.Entries.{next_place};
ghost use Rattle.aux_parties.specs.Auxiliaries.{is_auxiliary};
ghost use Rattle.sv_rules.specs.Work.{work_of};
ghost use Rattle.party_turns.specs.Entering.{IsOneIf};
ghost use Rattle.party_turns.specs.Serving.{ComesOn, EndsOn, MakesWork, RunsOn, TookTurn};
ghost use Rattle.party_turns.specs.SoFar.{GrowsBy, HasAnswered, IsIdleIf, IsServed};

use apl_arrays::{Array, Name, WantOfMemory};
use auxiliaries::Replier;
use sv_core::Core;
use sv_events::{Work, act_of};

/// An auxiliary in a run: its party, what answers behind it, and whether memory ran out for it.
#[derive(Drop)]
pub struct Auxiliary<X> {
    party: u32,
    replier: X,
    is_lost: bool,
}

impl<X: Replier> Auxiliary<X> {
    /// An auxiliary that has made no entry.
    pub fn new(party: u32, replier: X) -> Self
        ensures { result ≡ record { party = party; replier = replier; is_lost = false } }
    {
        Auxiliary {
            party,
            replier,
            is_lost: false,
        }
    }

    /// Whether memory ran out for it.
    pub fn is_lost(&self) -> bool
        ensures { result ≡ self.now.is_lost }
    {
        self.is_lost
    }

    /// What answers behind it.
    pub fn into_replier(self) -> X
        ensures { result ≡ self.replier }
    {
        self.replier
    }

    /// Memory ran out for it: it makes no entry any more.
    pub fn give_up(&mut self)
        ensures { self.new ≡ record self.old { is_lost = true } }
    {
        self.is_lost = true;
    }

    /// Its turn: it makes its work, if there is any, and says whether it made an entry. It takes memory for the reply and the
    /// entry; where that runs out, it makes no entry any more.
    #[tactic(auto, using(crate::proofs::Serving::ran_comes, crate::proofs::Serving::ended_comes))]
    pub fn take_turn(&mut self, core: &mut Core) -> bool
        requires { IsTrue (is_auxiliary self.old.party) }
        ensures party { self.new.party ≡ self.old.party }
        ensures one { IsOneIf result self.old.party core.old core.new }
        ensures grows { GrowsBy self.old.party core.old core.new }
        ensures answered { self.new.is_lost ≡ false → (start : X) → HasAnswered X.forgets X.replies start core.old.journal self.old → HasAnswered X.forgets X.replies start core.new.journal self.new }
        ensures turn { self.new.is_lost ≡ false → IsServed self.old.party core.old.journal core.new.journal }
        ensures idle { self.new.is_lost ≡ false → IsIdleIf self.old.party core.old.journal core.new.journal }
        ensures lost { self.old.is_lost ≡ true → (self.new ≡ self.old) × (core.new ≡ core.old) }
        ensures comes { ComesOn X.forgets X.replies X.wants self.old self.new }
    {
        if self.is_lost {
            return false;
        }
        match self.make_work(core) {
            Ok(made) => made,
            Err(_) => {
                self.is_lost = true;
                false
            }
        }
    }

    // Makes its work, if there is any, and says whether there was.
    fn make_work(&mut self, core: &mut Core) -> Result<bool, WantOfMemory>
        requires { IsTrue (is_auxiliary self.old.party) }
        ensures party { self.new.party ≡ self.old.party }
        ensures lost { self.new.is_lost ≡ self.old.is_lost }
        ensures one { IfOk result (λ made. IsOneIf made self.old.party core.old core.new) }
        ensures ok { OnOk result (TookTurn X.forgets X.replies self.old self.new core.old core.new) }
        ensures err { OnErr result (core.new ≡ core.old) }
        ensures runs { OnOk result (RunsOn X.forgets X.replies self.old.replier self.new.replier) }
        ensures ends { EndsOn X.forgets X.replies X.wants self.old.replier self.new.replier }
    {
        match core.work_of(self.party) {
            Work::Idle => Ok(false),
            Work::Control(local) => self.begin(core, local),
            Work::Reply(local) => self.reply(core, local),
            work => self.make(core, work),
        }
    }

    // Sets a control: what answers begins anew with the partner.
    fn begin(&mut self, core: &mut Core, local: Name) -> Result<bool, WantOfMemory>
        requires auxiliary { IsTrue (is_auxiliary self.old.party) }
        requires due { work_of core.old.journal self.old.party ≡ work.Control local }
        ensures party { self.new.party ≡ self.old.party }
        ensures lost { self.new.is_lost ≡ self.old.is_lost }
        ensures one { IfOk result (λ made. IsOneIf made self.old.party core.old core.new) }
        ensures ok { OnOk result (TookTurn X.forgets X.replies self.old self.new core.old core.new) }
        ensures err { OnErr result (core.new ≡ core.old) }
        ensures runs { OnOk result (RunsOn X.forgets X.replies self.old.replier self.new.replier) }
        ensures ends { EndsOn X.forgets X.replies X.wants self.old.replier self.new.replier }
    {
        self.replier.forget(core.customer(self.party));
        self.enter(core, Work::Control(local), None)
    }

    // Replies to the partner's value.
    fn reply(&mut self, core: &mut Core, local: Name) -> Result<bool, WantOfMemory>
        requires auxiliary { IsTrue (is_auxiliary self.old.party) }
        requires due { work_of core.old.journal self.old.party ≡ work.Reply local }
        ensures party { self.new.party ≡ self.old.party }
        ensures lost { self.new.is_lost ≡ self.old.is_lost }
        ensures one { IfOk result (λ made. IsOneIf made self.old.party core.old core.new) }
        ensures ok { OnOk result (TookTurn X.forgets X.replies self.old self.new core.old core.new) }
        ensures err { OnErr result (core.new ≡ core.old) }
        ensures runs { OnOk result (RunsOn X.forgets X.replies self.old.replier self.new.replier) }
        ensures ends { EndsOn X.forgets X.replies X.wants self.old.replier self.new.replier }
    {
        let reply = self
            .replier
            .reply(core.customer(self.party), core.request(self.party))?;
        self.enter(core, Work::Reply(local), Some(reply))
    }

    // Does any other work.
    fn make(&self, core: &mut Core, work: Work) -> Result<bool, WantOfMemory>
        requires auxiliary { IsTrue (is_auxiliary self.now.party) }
        requires due { work_of core.old.journal self.now.party ≡ work }
        requires act { IsSome (act_of work (next_place core.old.journal) None) }
        requires plain { is_service work ≡ false }
        ensures one { IfOk result (λ made. IsOneIf made self.now.party core.old core.new) }
        ensures ok { OnOk result (TookTurn X.forgets X.replies self.now self.now core.old core.new) }
        ensures err { OnErr result (core.new ≡ core.old) }
    {
        self.enter(core, work, None)
    }

    // Enters the act of its work, and says that it did.
    fn enter(&self, core: &mut Core, work: Work, reply: Option<Array>) -> Result<bool, WantOfMemory>
        requires auxiliary { IsTrue (is_auxiliary self.now.party) }
        requires due { work_of core.old.journal self.now.party ≡ work }
        requires act { IsSome (act_of work (next_place core.old.journal) reply) }
        ensures made { IfOk result (λ made. made ≡ true) }
        ensures ok { OnOk result (MakesWork self.now.party reply core.old core.new) }
        ensures err { OnErr result (core.new ≡ core.old) }
    {
        let place = core.journal().len() as u64 + 1;
        match core.step(self.party, act_of(work, place, reply)) {
            Ok(answer) => {
                drop(answer);
                Ok(true)
            }
            Err(_) => Err(WantOfMemory),
        }
    }
}
